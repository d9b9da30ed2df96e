// The numbers of answers.
ghost use Rattle.std.specs.Prelude.{◌≡◌};
ghost use Rattle.requesters.specs.Views.{view_answer};
ghost use Rattle.request_writer.specs.Writer.{written};
ghost use Rattle.firmware.specs.Numbers.{reply_to, reply_written};

use crate::Reply;
use octets::Refusal;
use requesters::Answer;

// An accepted call's answer; others differ from it in what they have.
const ACCEPTED: Reply = Reply {
    code: 0,
    cause: 0,
    place: 0,
    length: 0,
};

impl From<Answer> for Reply {
    ghost from_gives = { λ answer reply. reply ≡ reply_to (view_answer answer) };

    fn from(answer: Answer) -> Reply {
        match answer {
            Answer::Accepted => ACCEPTED,
            Answer::Nothing => Reply {
                code: 1,
                ..ACCEPTED
            },
            Answer::Length(length) => Reply {
                code: 2,
                length,
                ..ACCEPTED
            },
            Answer::Refused(refusal) => Reply {
                code: 3,
                cause: refusal.cause.number(),
                place: refusal.place,
                ..ACCEPTED
            },
        }
    }
}

impl From<Result<usize, Refusal>> for Reply {
    ghost from_gives = { λ r reply. reply ≡ reply_written (written r) };

    fn from(r: Result<usize, Refusal>) -> Reply {
        match r {
            Ok(length) => Reply::from(Answer::Length(length)),
            Err(refusal) => Reply::from(Answer::Refused(refusal)),
        }
    }
}
