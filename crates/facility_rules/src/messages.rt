// FACILITY about service 3: what it says, and what the asker and the other user are told.
ghost use Rattle.std.specs.Prelude.{◌≡◌, Some};
ghost use Rattle.facility_rules.specs.Messages.{facility_said_of, about_three_of, to_asker_of, to_other_of};

use crate::What;
use answer::{Answer, taken};
use message_types::Kind;
use sent::{Message, only_if, saying};
use services::{ByService, Said};

fn facility_said(what: What) -> Said
    ensures { result ≡ facility_said_of what }
{
    match what {
        What::Preferred => Said::Preferred,
        What::Accept => Said::Accepted,
        What::Reject => Said::ByUser,
        What::Required => Said::Required,
    }
}

// FACILITY about service 3.
#[tactic(auto, unfolding(crate::specs::Messages::about_three_of))]
fn about_three(s: Said) -> Message
    ensures { Some result ≡ about_three_of s }
{
    saying(
        Kind::Facility,
        None,
        ByService {
            three: s,
            ..ByService::same(Said::Nothing)
        },
        false,
    )
}

// The asker is told of 16.
#[tactic(auto, unfolding(sent::specs::Message::only_if_of))]
pub fn to_asker(verdict: Answer) -> Option<Message>
    ensures { result ≡ to_asker_of verdict }
{
    match verdict {
        Answer::NotGranted => Some(about_three(Said::ByNetwork)),
        _ => None,
    }
}

// What is taken goes on to the other user.
#[tactic(auto, unfolding(sent::specs::Message::only_if_of))]
pub fn to_other(verdict: Answer, what: What) -> Option<Message>
    ensures { result ≡ to_other_of verdict what }
{
    only_if(taken(verdict), Some(about_three(facility_said(what))))
}
