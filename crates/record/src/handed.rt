// What a judgement hands out: an answer, and how many entries its evidence has.
ghost use Rattle.std.specs.Prelude.{◌≡◌};
ghost use Rattle.record.specs.Refusals.{answer_of, count_of};

use crate::Verdict;
use crate::refusal::Refusal;

impl From<Result<(), Refusal>> for Verdict {
    ghost from_gives = { λ r v. (v.answer ≡ answer_of r) × (v.count ≡ count_of r) };

    fn from(judged: Result<(), Refusal>) -> Verdict {
        match judged {
            Ok(()) => Verdict {
                answer: 0,
                count: 0,
            },
            Err(refusal) => Verdict {
                answer: refusal.answer,
                count: refusal.count,
            },
        }
    }
}
