// What a USER INFORMATION message is answered, which service carries it, and what both sides are sent.
ghost use Rattle.std.specs.Prelude.{◌≡◌};
ghost use Rattle.information_rules.specs.Messages.{passage_answer_of, carrier_of, to_sender_of, to_receiver_of};

use answer::Answer;
use flow_meter::passage::Passage;
use rights::Service;
use sent::{Level, Message, congestion, informs};

pub fn passage_answer(p: Passage) -> Answer
    ensures { result ≡ passage_answer_of p }
{
    match p {
        Passage::Two(_) | Passage::Three(_) => Answer::Taken,
        Passage::Marks(_) | Passage::Spent => Answer::Spent,
        Passage::Unserved => Answer::NoService,
    }
}

// The service that pays for a message carries it.
pub fn carrier_of(p: Passage) -> Option<Service>
    ensures { result ≡ carrier_of p }
{
    match p {
        Passage::Two(_) => Some(Service::Two),
        Passage::Three(_) => Some(Service::Three),
        _ => None,
    }
}

// The sender is told once that there is no credit.
#[tactic(auto, unfolding(sent::specs::Message::only_if_of))]
pub fn to_sender(p: Passage) -> Option<Message>
    ensures { result ≡ to_sender_of p }
{
    match p {
        Passage::Marks(_) => Some(congestion(Level::NotReady)),
        _ => None,
    }
}

// A message that passes goes on to the other side.
#[tactic(auto, unfolding(sent::specs::Message::only_if_of))]
pub fn to_receiver(p: Passage, more: bool) -> Option<Message>
    ensures { result ≡ to_receiver_of p more }
{
    match p {
        Passage::Two(_) | Passage::Three(_) => Some(informs(more)),
        _ => None,
    }
}
