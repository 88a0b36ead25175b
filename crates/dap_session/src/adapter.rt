//! The state of a debug adapter, and its answers to messages.
ghost use Rattle.std.specs.Prelude.{◌≡◌, IfOk, OnOk, OnErr, None, Ok, MatchResult, option_map, is_ok, true, false};
ghost use Rattle.serde_json.specs.View.{view};
ghost use Rattle.dap_session.specs.Adapters.{Handles, IsRestarted, Launches, RunReplies, configured, is_accepted, with_run};
ghost use Rattle.dap_session.specs.Messages.{Announces, Answers, AnswersValue, EndsAt, EndsOnlyBy, asked_of, nobody};
ghost use Rattle.dap_session.specs.Moves.{started};
ghost use Rattle.dap_answers.specs.Outcomes.{outcome_of};
ghost use Rattle.dap_session.specs.Owing.{Settles, answered, asked_in, outcome_in, owed_by};
ghost use Rattle.dap_session.specs.Runs.{walk_of};
ghost use Rattle.dap_session.specs.Serving.{fresh_adapter};

use crate::base::Base;
use crate::capabilities::capabilities;
use crate::debuggee::Debuggee;
use crate::loading::load;
use crate::replying::moves;
use crate::wanted::Wanted;
use dap_answers::{Answer, Asked, Events, Reason, Refusal, Reply, Response};
use dap_messages::{
    InitializeArguments, LaunchArguments, Program, Request, RequestFault, Text, command_name_in,
    read_request, seq_in,
};
use serde_json::Value;
use std::alloc::{AllocError, Global};
use std::marker::Model;
use std::mem;
use std::rt::Files;

/// How far a session has come.
#[derive(Clone, Copy, PartialEq, Eq)]
pub(crate) enum Phase {
    /// Nothing was requested.
    New,
    /// The editor said what it can do.
    Initialized,
    /// A run is loaded, and the editor sets its breakpoints.
    Launched,
    /// The run can be moved.
    Running,
}

/// The state of a debug adapter.
pub(crate) struct Adapter {
    alloc: Global,
    phase: Phase,
    base: Base,
    /// The launch that isn't answered yet.
    owed: Option<Asked>,
    stops_on_entry: bool,
    debuggee: Option<Debuggee>,
}

// Written by hand, so that dropping it is one step of a proof.
impl Drop for Adapter {
    fn drop(self) {
        let Adapter {
            alloc: _,
            phase: _,
            base: _,
            owed: _,
            stops_on_entry: _,
            debuggee: _,
        } = self;
    }
}

impl Model for Adapter {
    ghost use Rattle.dap_session.specs.Adapters.{AdapterState, OwesOnlyALaunch};

    ghost Value = { AdapterState };

    ghost view = { λ a. record {
      phase = a.phase;
      owed = a.owed;
      run = a.debuggee;
      stops_on_entry = a.stops_on_entry;
    } };

    ghost invariant = { λ a. OwesOnlyALaunch a.phase a.owed };
}

// Returns the number and the command of a message.
fn asked_in(alloc: Global, message: &Value) -> Result<Asked, AllocError>
    ensures { IfOk result (λ asked. asked ≡ asked_of (view message.now)) }
{
    Ok(Asked {
        seq: seq_in(message),
        command: Text::new(alloc, command_name_in(message).unwrap_or(""))?,
    })
}

// Returns the number and the command of a message that can't be read.
fn nobody(alloc: Global) -> Result<Asked, AllocError>
    ensures { IfOk result (λ asked. asked ≡ nobody) }
{
    Ok(Asked {
        seq: 0,
        command: Text::new(alloc, "")?,
    })
}

// Refuses a request about the run.
fn refuse(_request: Request, reason: Reason) -> Result<Reply, Refusal>
    ensures { result ≡ Err (Refusal.Reason reason) }
{
    Err(Refusal::Reason(reason))
}

// Replies to a request about a run, if there is one.
fn reply_of(run: &mut Option<Debuggee>, request: Request) -> Result<Reply, Refusal>
    ensures { RunReplies run.old request (outcome_of result) run.new }
{
    match run {
        Some(run) => run.reply(request),
        None => refuse(request, Reason::NotLaunched),
    }
}

impl Adapter {
    pub(crate) fn new(alloc: Global) -> Adapter
        ensures { result ≡ fresh_adapter }
    {
        Adapter {
            alloc,
            phase: Phase::New,
            base: Base {
                client: InitializeArguments {
                    lines_start_at_1: true,
                    columns_start_at_1: true,
                    has_uris: false,
                },
            },
            owed: None,
            stops_on_entry: false,
            debuggee: None,
        }
    }

    fn initialize(&mut self, client: InitializeArguments) -> Result<Reply, Refusal>
        ensures ok { OnOk result ((self.old.phase ≡ Phase.New)
            × (self.new ≡ record self.old { phase = Phase.Initialized })) }
        ensures err { OnErr result (self.new ≡ self.old) }
    {
        if self.phase != Phase::New {
            return Err(Refusal::Reason(Reason::AlreadyInitialized));
        }
        if client.has_uris {
            return Err(Refusal::Reason(Reason::Uris));
        }
        let body = capabilities(self.alloc)?;
        self.base = Base { client };
        self.phase = Phase::Initialized;
        Ok(Reply::of(Some(body)))
    }

    // Returns why nothing can be launched now, if it can't.
    fn may_launch(&self) -> Result<(), Reason>
        ensures { OnOk result (self.now.phase ≡ Phase.Initialized) }
    {
        match self.phase {
            Phase::New => Err(Reason::NotInitialized),
            Phase::Initialized => Ok(()),
            Phase::Launched | Phase::Running => Err(Reason::AlreadyLaunched),
        }
    }

    // Takes over a run that was loaded.
    fn take(&mut self, asked: Asked, stops_on_entry: bool, debuggee: Debuggee) -> Answer
        requires initialized { self.old.phase ≡ Phase.Initialized }
        requires start { (walk_of debuggee).at ≡ 0 }
        ensures settled { Settles self.old.owed asked (answered result) self.new.owed }
        ensures first { result.first ≡ None }
        ensures launched { Launches self.old asked self.new }
        ensures ends { result.ends ≡ false }
        ensures announced { result.events.initialized ≡ true }
    {
        self.debuggee = Some(debuggee);
        self.stops_on_entry = stops_on_entry;
        self.owed = Some(asked);
        self.phase = Phase::Launched;
        let mut answer = Answer::nothing();
        answer.events.initialized = true;
        answer
    }

    fn launch(
        &mut self,
        rt: &(impl Files + AllocGlobal),
        asked: Asked,
        arguments: LaunchArguments,
    ) -> Answer
        ensures settled { Settles self.old.owed asked (answered result) self.new.owed }
        ensures handled { MatchResult (outcome_in result.first)
            (λ _. (self.old.phase ≡ Phase.Initialized) × Launches self.old asked self.new)
            (λ _. self.new ≡ self.old) }
        ensures ends { result.ends ≡ false }
        ensures announced { MatchResult (outcome_in result.first)
            (λ _. result.events.initialized ≡ true) (λ _. result.events.initialized ≡ false) }
    {
        if let Err(reason) = self.may_launch() {
            return Answer::refused(asked, Refusal::Reason(reason));
        }
        let LaunchArguments {
            program,
            stop_on_entry,
        } = arguments;
        match load(rt, self.base, program) {
            Ok(debuggee) => self.take(asked, stop_on_entry, debuggee),
            Err(refusal) => Answer::refused(asked, refusal),
        }
    }

    // Returns why the session can't be configured now, if it can't.
    fn may_configure(&self) -> Result<(), Reason>
        ensures { OnOk result (self.now.phase ≡ Phase.Launched) }
    {
        match self.phase {
            Phase::New => Err(Reason::NotInitialized),
            Phase::Initialized => Err(Reason::NotLaunched),
            Phase::Launched => Ok(()),
            Phase::Running => Err(Reason::AlreadyConfigured),
        }
    }

    // Stops at the start of the run, or runs on.
    fn start(&mut self) -> Result<Events, Refusal>
        ensures ok { OnOk result (self.new ≡ with_run self.old
            (option_map (λ run. started run self.old.stops_on_entry) self.old.run)) }
        ensures err { OnErr result (self.new ≡ self.old) }
    {
        match &mut self.debuggee {
            Some(debuggee) => debuggee.start(self.stops_on_entry),
            None => Err(Refusal::Reason(Reason::NotLaunched)),
        }
    }

    // Returns the response to the launch, if it isn't answered yet.
    fn answered_launch(&mut self, outcome: Result<Option<Value>, Refusal>) -> Option<Response>
        ensures paid { self.new ≡ record self.old { owed = None } }
        ensures asked { asked_in result ≡ owed_by self.old.owed }
    {
        match self.owed.take() {
            Some(asked) => Some(Response { asked, outcome }),
            None => None,
        }
    }

    // Answers the request that ends the configuration, and the launch.
    fn configured(&mut self, asked: Asked, events: Events) -> Answer
        ensures settled { Settles self.old.owed asked (answered result) self.new.owed }
        ensures first { outcome_in result.first ≡ Ok None }
        ensures running { self.new ≡ record self.old { phase = Phase.Running; owed = None } }
        ensures ends { result.ends ≡ false }
    {
        let second = self.answered_launch(Ok(None));
        self.phase = Phase::Running;
        Answer {
            first: Some(Response {
                asked,
                outcome: Ok(None),
            }),
            second,
            events,
            ends: false,
        }
    }

    fn configure(&mut self, asked: Asked) -> Answer
        ensures settled { Settles self.old.owed asked (answered result) self.new.owed }
        ensures handled { MatchResult (outcome_in result.first)
            (λ _. (self.old.phase ≡ Phase.Launched) × (self.new ≡ configured self.old))
            (λ _. self.new ≡ self.old) }
        ensures ends { result.ends ≡ false }
    {
        if let Err(reason) = self.may_configure() {
            return Answer::refused(asked, Refusal::Reason(reason));
        }
        match self.start() {
            Ok(events) => self.configured(asked, events),
            Err(refusal) => Answer::refused(asked, refusal),
        }
    }

    fn disconnect(&mut self, asked: Asked) -> Answer
        ensures settled { Settles self.old.owed asked (answered result) self.new.owed }
        ensures run { self.new.run ≡ self.old.run }
        ensures ends { result.ends ≡ false → self.old.phase ≡ Phase.New }
    {
        if self.phase == Phase::New {
            return Answer::refused(asked, Refusal::Reason(Reason::NotInitialized));
        }
        Answer {
            first: self.answered_launch(Err(Refusal::Reason(Reason::Ended))),
            second: Some(Response {
                asked,
                outcome: Ok(None),
            }),
            events: Events::none(),
            ends: true,
        }
    }

    // Returns the program of a restart, and whether it stops at its start.
    fn restarted(&self, arguments: Option<LaunchArguments>) -> Result<(Program, bool), Refusal> {
        if let Some(
            LaunchArguments {
                program,
                stop_on_entry,
            },
        ) = arguments
        {
            return Ok((program, stop_on_entry));
        }
        match &self.debuggee {
            Some(debuggee) => Ok((debuggee.program()?, self.stops_on_entry)),
            None => Err(Refusal::Reason(Reason::NotLaunched)),
        }
    }

    // Loads a run with the breakpoints of the current one, and starts it.
    fn reloaded(
        &self,
        rt: &(impl Files + AllocGlobal),
        program: Program,
        stops_on_entry: bool,
    ) -> Result<(Debuggee, Events), Refusal> {
        let mut debuggee = load(rt, self.base, program)?;
        if let Some(old) = &self.debuggee {
            debuggee.set_all(&old.wanted)?;
        }
        let events = debuggee.start(stops_on_entry)?;
        Ok((debuggee, events))
    }

    // Returns the breakpoints of the run, which then has none.
    fn take_wanted(&mut self) -> Wanted
        ensures { self.new ≡ self.old }
    {
        match &mut self.debuggee {
            Some(debuggee) => mem::replace(&mut debuggee.wanted, Wanted::new(self.alloc)),
            None => Wanted::new(self.alloc),
        }
    }

    // Loads a run with the breakpoints of the current one, which it replaces.
    fn reload(
        &mut self,
        rt: &(impl Files + AllocGlobal),
        program: Program,
        stops_on_entry: bool,
    ) -> Result<Reply, Refusal>
        ensures ok { OnOk result (IsRestarted self.old self.new) }
        ensures err { OnErr result (self.new ≡ self.old) }
    {
        let (mut debuggee, events) = self.reloaded(rt, program, stops_on_entry)?;
        debuggee.wanted = self.take_wanted();
        self.debuggee = Some(debuggee);
        self.stops_on_entry = stops_on_entry;
        Ok(Reply { body: None, events })
    }

    // Returns why the run can't be restarted now, if it can't.
    fn may_restart(&self) -> Result<(), Reason>
        ensures { OnOk result (self.now.phase ≡ Phase.Running) }
    {
        match self.phase {
            Phase::New => Err(Reason::NotInitialized),
            Phase::Initialized => Err(Reason::NotLaunched),
            Phase::Launched => Err(Reason::NotConfigured),
            Phase::Running => Ok(()),
        }
    }

    fn restart(
        &mut self,
        rt: &(impl Files + AllocGlobal),
        arguments: Option<LaunchArguments>,
    ) -> Result<Reply, Refusal>
        ensures ok { OnOk result ((self.old.phase ≡ Phase.Running)
            × IsRestarted self.old self.new) }
        ensures err { OnErr result (self.new ≡ self.old) }
    {
        if let Err(reason) = self.may_restart() {
            return Err(Refusal::Reason(reason));
        }
        let (program, stops_on_entry) = self.restarted(arguments)?;
        self.reload(rt, program, stops_on_entry)
    }

    // Returns why a request about the run is refused now, if it is.
    fn may_reply(&self, request: &Request) -> Result<(), Reason>
        ensures { is_ok result ≡ is_accepted self.now.phase request.now }
    {
        match self.phase {
            Phase::New => Err(Reason::NotInitialized),
            Phase::Initialized => Err(Reason::NotLaunched),
            Phase::Launched if moves(request) => Err(Reason::NotConfigured),
            Phase::Launched | Phase::Running => Ok(()),
        }
    }

    // Replies to a request about the run.
    fn reply(&mut self, request: Request) -> Result<Reply, Refusal>
        ensures rest { self.new ≡ with_run self.old self.new.run }
        ensures run { RunReplies self.old.run request (outcome_of result) self.new.run }
        ensures accepted { OnOk (outcome_of result) (is_accepted self.old.phase request ≡ true) }
    {
        match self.may_reply(&request) {
            Ok(()) => reply_of(&mut self.debuggee, request),
            Err(reason) => refuse(request, reason),
        }
    }

    // Answers a request.
    fn handle(&mut self, rt: &(impl Files + AllocGlobal), asked: Asked, request: Request) -> Answer
        ensures settled { Settles self.old.owed asked (answered result) self.new.owed }
        ensures handled { Handles self.old asked request (outcome_in result.first) self.new }
        ensures only { EndsOnlyBy request result }
        ensures ends { EndsAt self.old request result }
        ensures announced { Announces request result }
    {
        match request {
            Request::Initialize(client) => Answer::replied(asked, self.initialize(client)),
            Request::Launch(arguments) => self.launch(rt, asked, arguments),
            Request::ConfigurationDone => self.configure(asked),
            Request::Disconnect => self.disconnect(asked),
            Request::Restart(arguments) => Answer::replied(asked, self.restart(rt, arguments)),
            request => Answer::replied(asked, self.reply(request)),
        }
    }

    // Answers a message. Responses and events are ignored.
    fn answer_message(
        &mut self,
        rt: &(impl Files + AllocGlobal),
        message: &Value,
    ) -> Result<Answer, AllocError>
        ensures ok { IfOk result (λ a. AnswersValue self.old (view message.now) a self.new) }
        ensures err { OnErr result (self.new ≡ self.old) }
    {
        match read_request(self.alloc, message) {
            Ok(request) => {
                let asked = asked_in(self.alloc, message)?;
                Ok(self.handle(rt, asked, request))
            }
            Err(RequestFault::NotARequest) => Ok(Answer::nothing()),
            Err(fault) => {
                let asked = asked_in(self.alloc, message)?;
                Ok(Answer::refused(asked, Refusal::Request(fault)))
            }
        }
    }

    /// Answers the body of a message.
    pub(crate) fn answer(
        &mut self,
        rt: &(impl Files + AllocGlobal),
        body: &[u8],
    ) -> Result<Answer, AllocError>
        ensures ok { IfOk result (λ a. Answers self.old body.now a self.new) }
        ensures err { OnErr result (self.new ≡ self.old) }
    {
        match Value::from_slice(self.alloc, body) {
            Ok(message) => self.answer_message(rt, &message),
            Err(error) if error.is_memory() => Err(AllocError),
            Err(_) => {
                let refusal = Refusal::Reason(Reason::NotJson);
                Ok(Answer::refused(nobody(self.alloc)?, refusal))
            }
        }
    }
}
