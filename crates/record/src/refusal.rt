// Why a record is refused.
ghost use Rattle.std.specs.Prelude.{◌<◌};

// An answer that is not 0, and how many entries its evidence has.
#[derive(Clone, Copy)]
pub struct Refusal {
    pub answer: u16,
    pub count: usize,
    ghost refuses: { 0 < answer },
}
