ghost use Rattle.std.specs.Prelude.{◌≡◌, ◌+◌, ◌<◌, ◌^◌, ℕ, List};
ghost use Rattle.pr_num.specs.Files.{FileTable, Descriptors, with_all_closed};
ghost use Rattle.pr_parts.specs.FileTables.{AreOpenIn, CountsUsers, HasRoom, IsFileTable, PipesHaveEnds, count_at, users_at};
ghost use Rattle.pr_parts.specs.FileCalls.{closed, duplicated, no_files, opened, piped, sought, with_all_shared, with_file};
ghost use Rattle.pr_parts.specs.FileTransfers.{read_fd, write_fd};

// What shows that open files count the descriptors that stand for them, and that pipes have open ends. Each function
// carries laws in its contract, and does nothing.

/// A call changes the count of each open file as it changes the descriptors that stand for it. So the counts of a
/// system are those of all its descriptors, and have room for more where there are few enough.
#[tactic(auto, using(crate::proofs::CountLemmas::countings))]
pub fn users_are_counted()
    ensures closed { (t : FileTable) (fds : Descriptors) (fd : ℕ) → IsFileTable t
        → CountsUsers t fds (closed t fds fd).files (closed t fds fd).fds }
    ensures duplicated { (t : FileTable) (fds : Descriptors) (fd : ℕ)
        → CountsUsers t fds (duplicated t fds fd).files (duplicated t fds fd).fds }
    ensures opened { (t : FileTable) (fds : Descriptors) (name : List ℕ) (flags : ℕ)
        → CountsUsers t fds (opened t fds name flags).files (opened t fds name flags).fds }
    ensures piped { (t : FileTable) (fds : Descriptors) → CountsUsers t fds (piped t fds).files (piped t fds).fds }
    ensures sought { (t : FileTable) (fds : Descriptors) (fd offset place : ℕ)
        → users_at (sought t fds fd offset).files place ≡ users_at t place }
    ensures read { (t : FileTable) (fds : Descriptors) (fd most place : ℕ)
        → users_at (read_fd t fds fd most).files place ≡ users_at t place }
    ensures written { (t : FileTable) (fds : Descriptors) (fd place : ℕ) (bytes : List ℕ)
        → users_at (write_fd t fds fd bytes).files place ≡ users_at t place }
    ensures shared { (t : FileTable) (fds : Descriptors) → AreOpenIn fds t → (place : ℕ)
        → users_at (with_all_shared t fds) place ≡ users_at t place + count_at fds place }
    ensures all_closed { (t : FileTable) (fds : Descriptors) → IsFileTable t → AreOpenIn fds t → (place : ℕ)
        → users_at (with_all_closed t fds) place + count_at fds place ≡ users_at t place }
    ensures room { (t : FileTable) (more : ℕ) → ((place : ℕ) → users_at t place + more < 2 ^ 32) → HasRoom t more }
{}

/// A pipe that stands has an end that is open, whatever calls were made: at first no pipe stands, and each call keeps
/// it. So no idle pipe takes a place of those that can stand.
#[tactic(auto, using(crate::proofs::EndLemmas::ends_kept))]
pub fn pipes_have_open_ends()
    ensures none { PipesHaveEnds no_files }
    ensures added { (t : FileTable) (name bytes : List ℕ) → PipesHaveEnds t → PipesHaveEnds (with_file t name bytes) }
    ensures closed { (t : FileTable) (fds : Descriptors) (fd : ℕ) → PipesHaveEnds t → PipesHaveEnds (closed t fds fd).files }
    ensures duplicated { (t : FileTable) (fds : Descriptors) (fd : ℕ) → PipesHaveEnds t → PipesHaveEnds (duplicated t fds fd).files }
    ensures opened { (t : FileTable) (fds : Descriptors) (name : List ℕ) (flags : ℕ) → PipesHaveEnds t
        → PipesHaveEnds (opened t fds name flags).files }
    ensures piped { (t : FileTable) (fds : Descriptors) → PipesHaveEnds t → PipesHaveEnds (piped t fds).files }
    ensures sought { (t : FileTable) (fds : Descriptors) (fd offset : ℕ) → PipesHaveEnds t
        → PipesHaveEnds (sought t fds fd offset).files }
    ensures read { (t : FileTable) (fds : Descriptors) (fd most : ℕ) → PipesHaveEnds t
        → PipesHaveEnds (read_fd t fds fd most).files }
    ensures written { (t : FileTable) (fds : Descriptors) (fd : ℕ) (bytes : List ℕ) → PipesHaveEnds t
        → PipesHaveEnds (write_fd t fds fd bytes).files }
    ensures shared { (t : FileTable) (fds : Descriptors) → PipesHaveEnds t → PipesHaveEnds (with_all_shared t fds) }
    ensures all_closed { (t : FileTable) (fds : Descriptors) → PipesHaveEnds t → PipesHaveEnds (with_all_closed t fds) }
{}
