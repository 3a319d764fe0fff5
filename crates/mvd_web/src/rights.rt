//! What a token allows over HTTP.
ghost use Rattle.std.specs.Prelude.{◌≡◌};
ghost use Rattle.mvd_web.specs.Rights.{may_ask as may_told};

use mvd_conn::Right;
use mvd_http::Question;

/// Whether a right allows a question. Of a list each line is looked at by itself.
pub fn may_ask(right: &Right, question: &Question) -> bool
    ensures { result ≡ may_told right.now question.now }
{
    match question {
        Question::Ask(request)
        | Question::Live(request)
        | Question::Texts(request)
        | Question::Listed(request, _) => right.allows(request),
        Question::Changes(_, _, followed) => right.covers(followed.prefix.text()),
        Question::Root | Question::Metrics => right.is_of_all(),
        Question::Stop => right.writes && right.is_of_all(),
        Question::Page
        | Question::Health
        | Question::Many(_)
        | Question::Asks(..)
        | Question::BadLine(_)
        | Question::TooLong
        | Question::Misread(..)
        | Question::Nowhere
        | Question::NotAllowed(_) => true,
    }
}
