//! Inputs in two parts, with a line between them that is a mark.
ghost use Rattle.std.specs.Prelude.{◌≡◌, ◌≤◌, ◌+◌, ◌<◌, ◌^◌, length, IfSome};
ghost use Rattle.pr_num.specs.Limits.{checked_limit};
ghost use Rattle.pr_input.specs.Marks.{begins_line, is_mark, is_mark_at, last_mark, lines_above, mark_line, mark_place, text_below};

/// A line between the parts of an input.
#[derive(Clone, Copy, Debug, PartialEq, Eq)]
pub enum Mark {
    /// `%history`: a history stands below.
    History,
    /// `%core`: the text of a core stands below.
    Core,
}

impl Mark {
    /// The line with its newline.
    #[tactic(auto, unfolding(crate::specs::Marks::mark_line))]
    fn line(self) -> &'static [u8]
        ensures { result.now ≡ mark_line self }
    {
        match self {
            Mark::History => b"%history\n",
            Mark::Core => b"%core\n",
        }
    }

    /// The same line as the last of an input, without its newline.
    #[tactic(auto, unfolding(crate::specs::Marks::last_mark))]
    fn last(self) -> &'static [u8]
        ensures { result.now ≡ last_mark self }
    {
        match self {
            Mark::History => b"%history",
            Mark::Core => b"%core",
        }
    }

    /// Whether the first line of a text is this one.
    #[tactic(auto, unfolding(crate::specs::Marks::is_mark))]
    fn begins(self, text: &[u8]) -> bool
        ensures { result ≡ is_mark self text.now }
    {
        text.starts_with(self.line()) || text == self.last()
    }

    /// Whether this line stands at a place of a text.
    #[tactic(auto, unfolding(crate::specs::Marks::is_mark_at), using(std::proofs::lemmas::List::drop_min))]
    fn stands_at(self, text: &[u8], place: usize) -> bool
        ensures { result ≡ is_mark_at self text.now place }
    {
        begins_line(text, place) && self.begins(&text[place.min(text.len())..])
    }

    /// The place of the first such line, where no more bytes stand above it than a limit.
    #[tactic(auto, unfolding(crate::specs::Marks::mark_place))]
    fn first(self, limit: usize, text: &[u8]) -> Option<usize>
        requires { limit ≤ checked_limit }
        ensures { result ≡ mark_place self limit text.now }
    {
        (0..text.len().min(limit + 1)).find(|place| self.stands_at(text, *place))
    }

    /// The same: it stands within the text.
    pub fn place(self, limit: usize, text: &[u8]) -> Option<usize>
        requires { limit ≤ checked_limit }
        ensures place { result ≡ mark_place self limit text.now }
        ensures within { IfSome result (λ place. place < length text.now) }
    {
        self.first(limit, text)
    }

    /// The text below this line, which stands at a place of it.
    #[tactic(auto, using(std::proofs::lemmas::List::drop_min))]
    pub fn below(self, text: &[u8], place: usize) -> &[u8]
        requires within { place ≤ length text.now }
        requires few { length text.now ≤ checked_limit }
        ensures below { result.now ≡ text_below self text.now place }
        ensures fewer { length result.now ≤ length text.now }
    {
        &text[(place + self.line().len()).min(text.len())..]
    }
}

/// Whether a line begins at this place of a text.
#[tactic(auto, unfolding(crate::specs::Marks::begins_line))]
fn begins_line(text: &[u8], place: usize) -> bool
    ensures { result ≡ begins_line text.now place }
{
    if place == 0 {
        return true;
    }
    match text.get(place - 1) {
        Some(byte) => *byte == b'\n',
        None => false,
    }
}

/// How many lines stand above a place at which a line begins.
pub fn lines_above(text: &[u8], place: usize) -> u32
    requires within { place ≤ length text.now }
    requires few { length text.now ≤ checked_limit }
    ensures lines { result ≡ lines_above text.now place }
    ensures few { result ≤ place }
{
    text[..place].iter().filter(|byte| **byte == b'\n').count() as u32
}
