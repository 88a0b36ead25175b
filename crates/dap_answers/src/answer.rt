//! What is sent for a message of the editor.
ghost use Rattle.std.specs.Prelude.{◌≡◌, None, Some, Err, false};
ghost use Rattle.dap_answers.specs.Outcomes.{outcome_of};

use crate::refusal::Refusal;
use dap_messages::Text;
use serde_json::Value;

/// A request that is to be answered: its number, and the name of its command.
#[derive(Drop)]
pub struct Asked {
    pub seq: u64,
    pub command: Text,
}

/// The result of a request: the body of its response, if it has one, and the events after it.
#[derive(Drop)]
pub struct Reply {
    pub body: Option<Value>,
    pub events: Events,
}

/// The events that are sent, in this order: their bodies.
#[derive(Drop)]
pub struct Events {
    /// `initialized` has no body.
    pub initialized: bool,
    pub continued: Option<Value>,
    pub output: Option<Value>,
    pub stopped: Option<Value>,
}

/// The response to a request.
#[derive(Drop)]
pub struct Response {
    pub asked: Asked,
    pub outcome: Result<Option<Value>, Refusal>,
}

/// What is sent for a message: at most two responses, and the events after them.
#[derive(Drop)]
pub struct Answer {
    pub first: Option<Response>,
    pub second: Option<Response>,
    pub events: Events,
    /// Whether the session ends.
    pub ends: bool,
}

impl Events {
    /// Returns no events.
    pub fn none() -> Events
        ensures { result ≡ record {
          initialized = false;
          continued = None;
          output = None;
          stopped = None;
        } }
    {
        Events {
            initialized: false,
            continued: None,
            output: None,
            stopped: None,
        }
    }
}

impl Reply {
    /// Returns a response without events.
    pub fn of(body: Option<Value>) -> Reply
        ensures { result.body ≡ body }
    {
        Reply {
            body,
            events: Events::none(),
        }
    }
}

impl Answer {
    /// Returns that nothing is sent.
    pub fn nothing() -> Answer
        ensures first { result.first ≡ None }
        ensures second { result.second ≡ None }
        ensures ends { result.ends ≡ false }
    {
        Answer {
            first: None,
            second: None,
            events: Events::none(),
            ends: false,
        }
    }

    /// Returns the response that a request is refused.
    pub fn refused(asked: Asked, refusal: Refusal) -> Answer
        ensures first { result.first
            ≡ Some (record { asked = asked; outcome = Err refusal }) }
        ensures second { result.second ≡ None }
        ensures ends { result.ends ≡ false }
        ensures events { result.events.initialized ≡ false }
    {
        Answer {
            first: Some(Response {
                asked,
                outcome: Err(refusal),
            }),
            second: None,
            events: Events::none(),
            ends: false,
        }
    }

    /// Returns the response to a request, and its events.
    pub fn replied(asked: Asked, replied: Result<Reply, Refusal>) -> Answer
        ensures first { result.first
            ≡ Some (record { asked = asked; outcome = outcome_of replied }) }
        ensures second { result.second ≡ None }
        ensures ends { result.ends ≡ false }
    {
        match replied {
            Ok(Reply { body, events }) => Answer {
                first: Some(Response {
                    asked,
                    outcome: Ok(body),
                }),
                second: None,
                events,
                ends: false,
            },
            Err(refusal) => Answer::refused(asked, refusal),
        }
    }
}
