ghost use Rattle.std.specs.Prelude.{◌≡◌, map};
ghost use Rattle.lease_client.specs.Answers.{answer_of, note_of};

use crate::client::Client;
use crate::entry::turn::Given;
use crate::values::command::Answer;
use crate::values::note::Note;
use lease_state::Request;

/// What a call of a client comes to (profile): the client after it, the answer to the application,
/// the requests to be sent to the server and the notes for the program, each in order.
#[derive(Debug, Drop)]
pub struct Step {
    pub client: Client,
    pub answer: Answer,
    pub requests: Vec<Request>,
    pub notes: Vec<Note>,
}

impl Step {
    /// The client after a call, and what the call gave out.
    pub(crate) fn of(client: Client, given: Given) -> Step
        ensures client { result.client ≡ client }
        ensures answer { answer_of result.answer ≡ given.answer }
        ensures requests { result.requests.items ≡ given.requests }
        ensures notes { map note_of result.notes.items ≡ given.notes }
    {
        let Given {
            answer,
            requests,
            notes,
        } = given;
        Step {
            client,
            answer,
            requests,
            notes,
        }
    }
}
