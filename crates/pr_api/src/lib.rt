//! Kernels as controllers see them: the trait that every kernel has, and a kernel that answers from a list of replies.
#![tactic(auto)]

mod kernels;
mod laws;
mod shapes;
mod table_kernels;

pub use kernels::Kernel;
pub use laws::replies_of_the_machine_have_their_shape;
pub use shapes::has_shape;
pub use table_kernels::TableKernel;
