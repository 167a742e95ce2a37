// What the loop over a chain does after a command.

ghost use Rattle.std.specs.Prelude.{◌≡◌};
ghost use Rattle.server.specs.Step.{forms_after, holder_left, goes_on, fid_opened, just_opened};

use chain::block::Next;
use locks::types::Holder;
use message::answer::Answer;
use message::refusal::{Forms, Refusal, both_forms, forms_of, holder_of};

// The status, in both forms, that an answer leaves for the header, if it is the last: 0/0 and 0 unless it is a refusal.
#[tactic(auto, unfolding(crate::specs::Step::forms_after))]
pub(crate) fn forms_after(answered: Result<Answer, Refusal>) -> Forms
    ensures { result ≡ forms_after answered }
{
    match answered {
        Ok(_) => both_forms(0, 0, 0),
        Err(why) => forms_of(why),
    }
}

// The holder that an answer names, if it is the last: nobody unless it is a refusal for conflict.
#[tactic(auto, unfolding(crate::specs::Step::holder_left))]
pub(crate) fn holder_left(answered: Result<Answer, Refusal>) -> Option<Holder>
    ensures { result ≡ holder_left answered }
{
    match answered {
        Ok(_) => None,
        Err(why) => holder_of(why),
    }
}

// What is carried out next: "Commands before it in the chain stand; those after it aren't begun."
#[tactic(auto, unfolding(crate::specs::Step::goes_on))]
pub(crate) fn goes_on(answered: Result<Answer, Refusal>, next: Next) -> Next
    ensures { result ≡ goes_on answered next }
{
    match answered {
        Ok(_) => next,
        Err(_) => None,
    }
}

// What FID 0xFFFF means in the next block: "the file just opened", or nobody's. A number and no Option: what the definitions of a chain hand on is 0xFFFF
// itself, nobody's FID.
pub(crate) const NOBODY: u16 = 0xffff;

#[tactic(auto, unfolding(crate::specs::Step::fid_opened))]
fn fid_opened(a: Answer) -> u16
    ensures { result ≡ fid_opened a }
{
    match a {
        Answer::Opened(fid, _, _, _) => fid,
        _ => NOBODY,
    }
}

#[tactic(auto, unfolding(crate::specs::Step::just_opened))]
pub(crate) fn opened_by(answered: Result<Answer, Refusal>) -> u16
    ensures { result ≡ just_opened answered }
{
    match answered {
        Ok(a) => fid_opened(a),
        Err(_) => NOBODY,
    }
}
