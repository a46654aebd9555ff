//! What a call of a session comes to: each is answered by the function of its name.

ghost use Rattle.std.specs.Prelude.{◌≡◌, true, option_map, Some, IfOk, OnErr};
ghost use Rattle.cm_model.specs.Boundary.{request_reply, request_effect};
ghost use Rattle.cm_model.specs.Machine.{reply_of};
ghost use Rattle.cm_desk.specs.Calls.Answers.{CanAnswer, CanChange};
ghost use Rattle.cm_desk.specs.Desk.{IsAnswerTo, is_list, IsShort};
ghost use Rattle.cm_desk.specs.Works.{IsAnswered};

use crate::works::Works;
use cm_document::{Call, Life, Mail, SwitchRequest};
use cm_model::{Reply, Request};
use ctl_trait::Controller;
use fixed_num::Memory;
use iface_names::Name;
use sequence::Shared;
use std::alloc::Global;

/// What a call came to: its reply, once for the caller and once for the history, and the box that it hands out.
#[derive(Drop)]
pub(crate) struct Answer<C> {
    pub(crate) reply: Reply,
    pub(crate) noted: Reply,
    pub(crate) given: Option<C>,
}

impl<C: Controller> Works<C> {
    /// Answers a call of a session. If memory ran out nothing has changed.
    pub(crate) fn answer(&mut self, alloc: Global, call: &Call) -> Result<Answer<C>, Memory>
        requires { CanAnswer self.old call.now }
        ensures made { IfOk result
            (λ answer. IsAnswerTo self.old call.now self.new answer.reply (option_map C.meaning answer.given)) }
        ensures twice { IfOk result (λ answer. answer.noted ≡ answer.reply) }
        ensures kept { OnErr result (self.new ≡ self.old) }
    {
        if is_list(call) {
            return self.told_list(alloc, call);
        }
        let (reply, given) = self.change(alloc, call)?;
        let noted = copied(&reply);
        Ok(Answer {
            reply,
            noted,
            given,
        })
    }

    /// Answers a list, which changes nothing.
    #[tactic(auto, using(crate::proofs::AnswerLemmas::list_changes_nothing))]
    fn told_list(&self, alloc: Global, call: &Call) -> Result<Answer<C>, Memory>
        requires { is_list call.now ≡ true }
        ensures made { IfOk result
            (λ answer. IsAnswerTo self.now call.now self.now answer.reply (option_map C.meaning answer.given)) }
        ensures twice { IfOk result (λ answer. answer.noted ≡ answer.reply) }
    {
        let reply = self.list(alloc, call)?;
        let noted = reply.clone()?;
        Ok(Answer {
            reply,
            noted,
            given: None,
        })
    }

    /// The list that is asked for.
    fn list(&self, alloc: Global, call: &Call) -> Result<Reply, Memory>
        requires { is_list call.now ≡ true }
        ensures { IfOk result (λ reply. reply_of self.now call.now ≡ Some reply) }
    {
        match call {
            Call::ListControllers => Ok(Reply::Controllers(Shared::new(
                alloc,
                self.controllers(alloc)?,
            )?)),
            Call::ListInterfaces => Ok(Reply::Interfaces(Shared::new(
                alloc,
                self.interfaces(alloc)?,
            )?)),
            Call::ListComponents => Ok(Reply::Components(Shared::new(
                alloc,
                self.components(alloc)?,
            )?)),
            _ => unreachable!(),
        }
    }

    /// Answers a call that is no list, by the function of its name. If memory ran out nothing has changed.
    #[tactic(auto, using(crate::proofs::AnswerLemmas::load_reply_is_short, crate::proofs::AnswerLemmas::reply_on_is_short, crate::proofs::AnswerLemmas::request_reply_is_short))]
    fn change(&mut self, alloc: Global, call: &Call) -> Result<(Reply, Option<C>), Memory>
        requires { CanChange self.old call.now }
        ensures made { IfOk result
            (λ answer. IsAnswerTo self.old call.now self.new answer.0 (option_map C.meaning answer.1)) }
        ensures short { IfOk result (λ answer. IsShort answer.0) }
        ensures kept { OnErr result (self.new ≡ self.old) }
    {
        match call {
            Call::Load(name) => Ok((self.load(name)?, None)),
            Call::Configure(name) => Ok((self.configure(alloc, name)?, None)),
            Call::Cleanup(name) => Ok((self.cleanup(name), None)),
            Call::Unload(name) => Ok(self.unload(name)),
            Call::Rate { name, hz } => Ok((self.rate(name, *hz), None)),
            Call::Send { name, mail } => Ok((self.send(name, own_mail(mail)?), None)),
            Call::Switch(asked) => Ok((self.ask(alloc, switch_of(asked)?)?, None)),
            Call::Hardware { component, target } => Ok((
                self.ask(alloc, move_of(component, *target)?)?,
                None,
            )),
            _ => unreachable!(),
        }
    }
}

impl<C: Controller> Works<C> {
    /// A request comes to wait under the next ticket, if the loop is open and fewer wait than can wait. If memory
    /// ran out nothing has changed.
    fn ask(&mut self, alloc: Global, request: Request) -> Result<Reply, Memory>
        ensures made { IfOk result
            (IsAnswered (request_reply self.old) (request_effect self.old request) self.new) }
        ensures kept { OnErr result (self.new ≡ self.old) }
    {
        self.requests.ask(alloc, self.closed, request)
    }
}

/// The mail of a call, which stays with the history.
fn own_mail(mail: &Mail) -> Result<Mail, Memory>
    ensures { IfOk result (λ own. own ≡ mail.now) }
{
    Ok(mail.clone()?)
}

/// The request of a switch, which stays with the history.
fn switch_of(asked: &SwitchRequest) -> Result<Request, Memory>
    ensures { IfOk result (λ request. request ≡ Request.Switch asked.now) }
{
    Ok(Request::Switch(asked.clone()?))
}

/// The request that a component moves.
fn move_of(component: &Name, target: Life) -> Result<Request, Memory>
    ensures { IfOk result (λ request. request ≡ Request.Hardware component.now target) }
{
    Ok(Request::Hardware {
        component: component.clone()?,
        target,
    })
}

/// Whether the call asks for a list.
fn is_list(call: &Call) -> bool
    ensures { result ≡ is_list call.now }
{
    matches!(
        call,
        Call::ListControllers | Call::ListInterfaces | Call::ListComponents
    )
}

/// A short reply once more. It takes no memory.
fn copied(reply: &Reply) -> Reply
    requires { IsShort reply.now }
    ensures { result ≡ reply.now }
{
    match reply {
        Reply::Done => Reply::Done,
        Reply::Serial(serial) => Reply::Serial(*serial),
        Reply::Queued(ticket) => Reply::Queued(*ticket),
        Reply::Not(why) => Reply::Not(*why),
        _ => unreachable!(),
    }
}
