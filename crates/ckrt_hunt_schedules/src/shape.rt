//! What a program is run with.
ghost use Rattle.std.specs.Prelude.{◌≤◌};

/// What a program is run with: the pages of its memory, page 0 counted, its harts, and how many steps and events a run has
/// at most; and whether outcomes that differ in their output alone are one.
#[derive(Clone, Copy, Debug, PartialEq, Eq)]
pub struct Shape {
    pub pages: u32,
    pub harts: usize,
    pub limit: u32,
    pub ignores_output: bool,
    ghost some_pages: { 16 ≤ pages },
    ghost few_pages: { pages ≤ 65536 },
    ghost some_harts: { 1 ≤ harts },
    ghost few_harts: { harts ≤ 8 },
}

impl Shape {
    ghost use Rattle.std.specs.Prelude.{◌≡◌, option_map};
    ghost use Rattle.ckrt_hunt_schedules.specs.Tallies.{numbers_of, shape_of};

    /// A program of that many pages and harts, whose runs have at most that many steps and events, and are told apart by their output too.
    /// None where the pages aren't 16 to 65,536, or the harts 1 to 8.
    pub fn new(pages: u32, harts: u32, limit: u32) -> Option<Shape>
        ensures { option_map numbers_of result ≡ shape_of pages harts limit }
    {
        if 16 <= pages && pages <= 65_536 && 1 <= harts && harts <= 8 {
            let harts = harts as usize;
            Some(Shape {
                pages,
                harts,
                limit,
                ignores_output: false,
            })
        } else {
            None
        }
    }

    /// The same, where outcomes that differ in their output alone are one, or aren't.
    pub fn ignoring_output(self, ignores_output: bool) -> Shape
        ensures numbers { numbers_of result ≡ numbers_of self }
        ensures output { result.ignores_output ≡ ignores_output }
    {
        Shape {
            pages: self.pages,
            harts: self.harts,
            limit: self.limit,
            ignores_output,
        }
    }
}
