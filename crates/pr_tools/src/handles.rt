//! The files that a controller has open.
ghost use Rattle.std.specs.Prelude.{◌≡◌, ◌<◌, ◌≤◌, length};
ghost use Rattle.pr_tools.specs.Handles.{most_open, nothing_open, handle_at, with_handle, places_to_last, last_place, last_open, without_last};

/// The most files that are open at once.
const MOST_OPEN: usize = 8;

/// The handles of the files that a controller has open, each at its place in the order of opening. They are closed in
/// the reverse order.
#[derive(Clone, Copy, Debug, PartialEq, Eq)]
pub struct Opened {
    handles: [Option<u32>; MOST_OPEN],
}

/// How many places there are up to the last file that is open.
#[tactic(auto, unfolding(crate::specs::Handles::places_to_last))]
fn places_to_last(handles: &[Option<u32>]) -> usize
    ensures value { result ≡ places_to_last handles.now }
    ensures within { result ≤ length handles.now }
{
    match handles {
        [] => 0,
        [first, rest @ ..] => match places_to_last(rest) {
            0 => usize::from(first.is_some()),
            places => places + 1,
        },
    }
}

impl Opened {
    /// No file is open.
    #[tactic(auto, unfolding(crate::specs::Handles::nothing_open))]
    pub fn nothing() -> Opened
        ensures { result ≡ nothing_open }
    {
        Opened {
            handles: [None; MOST_OPEN],
        }
    }

    /// The file at a place, where it is open.
    #[tactic(auto, unfolding(crate::specs::Handles::handle_at))]
    pub fn at(self, place: usize) -> Option<u32>
        requires { place < most_open }
        ensures { result ≡ handle_at self place }
    {
        self.handles[place]
    }

    /// The file at a place was opened, or that gave no handle.
    #[tactic(auto, unfolding(crate::specs::Handles::with_handle))]
    pub fn with(self, place: usize, handle: Option<u32>) -> Opened
        requires { place < most_open }
        ensures { result ≡ with_handle self place handle }
    {
        let mut handles = self.handles;
        handles[place] = handle;
        Opened { handles }
    }

    /// The place of the file that was opened last.
    fn last_place(self) -> usize
        ensures value { result ≡ last_place self }
        ensures within { result < most_open }
    {
        places_to_last(&self.handles).saturating_sub(1)
    }

    /// The file that was opened last.
    #[tactic(auto, unfolding(crate::specs::Handles::last_open))]
    pub fn last(self) -> Option<u32>
        ensures { result ≡ last_open self }
    {
        self.at(self.last_place())
    }

    /// What is open once that was closed.
    #[tactic(auto, unfolding(crate::specs::Handles::without_last))]
    pub fn without_last(self) -> Opened
        ensures { result ≡ without_last self }
    {
        self.with(self.last_place(), None)
    }
}
