//! What a caller keeps of an answer.
ghost use Rattle.std.specs.Prelude.{◌≡◌};
ghost use Rattle.act_model.specs.Answer.{Reply};

use act_model::Answer;

/// What a caller keeps of an answer, in place of it.
pub trait FromAnswer: Drop + Send {
    /// What it is, by the answer.
    ghost kept_of: { Reply → Self };

    /// Makes it of an answer.
    fn from_answer(answer: Answer) -> Self
        ensures { result ≡ kept_of answer };
}

/// The answer itself.
impl FromAnswer for Answer {
    ghost kept_of = { λ answer. answer };

    fn from_answer(answer: Answer) -> Answer
        ensures { result ≡ answer }
    {
        answer
    }
}
