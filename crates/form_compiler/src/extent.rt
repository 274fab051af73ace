/// How many lines the points of a form have, how many nodes the form takes, and how many forms stand directly under it.
/// Lines are counted up to 65,537 and no further.
#[derive(Clone, Copy)]
pub struct Extent {
    pub lines: u32,
    pub nodes: usize,
    pub forms: usize,
}
