//! How kinds, lifecycle states, verbs and calls print.

ghost use Rattle.std.specs.Prelude.{Some, flat_map};
ghost use Rattle.std.specs.Fmt.{DisplaysOnOk};
ghost use Rattle.cm_document.specs.CallText.{values_text, point_text, signed_text};

use crate::call::{Call, Mail, Pick, Point2, SwitchRequest};
use crate::description::{CompKind, CtlKind};
use crate::life::Life;
use crate::script::Verb;
use crate::vocabulary::strictness_word;
use fixed_num::Fx;
use std::fmt;
use std::fmt::{Display, Formatter, Write};

impl Display for CompKind {
    ghost use Rattle.std.specs.Prelude.{Some};
    ghost use Rattle.cm_document.specs.Vocabulary.{component_word};

    ghost output = { λ kind. Some (component_word kind) };

    fn fmt<W: Write>(&self, f: &mut Formatter<W>) -> fmt::Result {
        f.write_str(self.word())
    }
}

impl Display for CtlKind {
    ghost use Rattle.std.specs.Prelude.{Some};
    ghost use Rattle.cm_document.specs.Vocabulary.{controller_word};

    ghost output = { λ kind. Some (controller_word kind) };

    fn fmt<W: Write>(&self, f: &mut Formatter<W>) -> fmt::Result {
        f.write_str(self.word())
    }
}

impl Display for Life {
    ghost use Rattle.std.specs.Prelude.{Some};
    ghost use Rattle.cm_document.specs.Vocabulary.{life_word};

    ghost output = { λ life. Some (life_word life) };

    fn fmt<W: Write>(&self, f: &mut Formatter<W>) -> fmt::Result {
        f.write_str(self.word())
    }
}

impl Display for Verb {
    ghost use Rattle.std.specs.Prelude.{Some};
    ghost use Rattle.cm_document.specs.Vocabulary.{verb_word};

    ghost output = { λ verb. Some (verb_word verb) };

    fn fmt<W: Write>(&self, f: &mut Formatter<W>) -> fmt::Result {
        f.write_str(self.word())
    }
}

impl Display for Point2 {
    ghost use Rattle.std.specs.Prelude.{Some};
    ghost use Rattle.cm_document.specs.CallText.{point_text};

    ghost output = { λ point. Some (point_text point) };

    fn fmt<W: Write>(&self, f: &mut Formatter<W>) -> fmt::Result {
        let at_us = self.at_us;
        write!(f, " @{at_us}")?;
        write_values(self.values.as_slice(), f)
    }
}

impl Display for Mail {
    ghost use Rattle.std.specs.Prelude.{Some};
    ghost use Rattle.cm_document.specs.CallText.{mail_text};

    ghost output = { λ mail. Some (mail_text mail) };

    fn fmt<W: Write>(&self, f: &mut Formatter<W>) -> fmt::Result {
        match self {
            Mail::Values(values) => write_values(values.as_slice(), f),
            Mail::Points(points) => write_points(points.as_slice(), f),
        }
    }
}

impl Display for Pick {
    ghost use Rattle.std.specs.Prelude.{Some};
    ghost use Rattle.cm_document.specs.CallText.{pick_text};

    ghost output = { λ pick. Some (pick_text pick) };

    fn fmt<W: Write>(&self, f: &mut Formatter<W>) -> fmt::Result {
        match self {
            Pick::One(name) => write!(f, "{name}"),
            Pick::Group(name) => write!(f, "@{name}"),
        }
    }
}

impl Display for SwitchRequest {
    ghost use Rattle.std.specs.Prelude.{Some};
    ghost use Rattle.cm_document.specs.CallText.{switch_text};

    ghost output = { λ request. Some (switch_text request) };

    fn fmt<W: Write>(&self, f: &mut Formatter<W>) -> fmt::Result {
        let strictness = strictness_word(self.strict);
        write!(f, "{} {strictness}", Verb::Switch)?;
        write_signed("-", self.off.as_slice(), f)?;
        write_signed("+", self.on.as_slice(), f)
    }
}

impl Display for Call {
    ghost use Rattle.std.specs.Prelude.{Some};
    ghost use Rattle.cm_document.specs.CallText.{call_text};

    ghost output = { λ call. Some (call_text call) };

    fn fmt<W: Write>(&self, f: &mut Formatter<W>) -> fmt::Result {
        match self {
            Call::Load(name) => write!(f, "{} {name}", Verb::Load),
            Call::Configure(name) => write!(f, "{} {name}", Verb::Configure),
            Call::Cleanup(name) => write!(f, "{} {name}", Verb::Cleanup),
            Call::Unload(name) => write!(f, "{} {name}", Verb::Unload),
            Call::Rate { name, hz } => write!(f, "{} {name} {hz}", Verb::Rate),
            Call::Send { name, mail } => write!(f, "{} {name}{mail}", Verb::Send),
            Call::Switch(request) => write!(f, "{request}"),
            Call::Hardware { component, target } => write!(
                f,
                "{} {component} {target}",
                Verb::Hardware
            ),
            Call::Told(ticket) => write!(f, "told {ticket}"),
            Call::Await(cycles) => write!(f, "{} {cycles}", Verb::Await),
            Call::ListControllers => write!(f, "{} controllers", Verb::List),
            Call::ListInterfaces => write!(f, "{} interfaces", Verb::List),
            Call::ListComponents => write!(f, "{} components", Verb::List),
            Call::Begin(cycle) => write!(f, "{} {cycle}", Verb::Begin),
            Call::End(cycle) => write!(f, "{} {cycle}", Verb::End),
            Call::Close => f.write_str("close"),
        }
    }
}

fn write_values<W: Write>(values: &[Fx], f: &mut Formatter<W>) -> fmt::Result
    ensures { DisplaysOnOk W.write_str_gives f.old result (Some (values_text values.now)) f.new }
{
    for value in values {
        write!(f, " {value}")?;
    }
    Ok(())
}

fn write_points<W: Write>(points: &[Point2], f: &mut Formatter<W>) -> fmt::Result
    ensures { DisplaysOnOk W.write_str_gives f.old result (Some (flat_map point_text points.now)) f.new }
{
    for point in points {
        write!(f, "{point}")?;
    }
    Ok(())
}

fn write_signed<W: Write>(sign: &str, picks: &[Pick], f: &mut Formatter<W>) -> fmt::Result
    ensures { DisplaysOnOk W.write_str_gives f.old result (Some (signed_text sign.now picks.now)) f.new }
{
    for pick in picks {
        write!(f, " {sign}{pick}")?;
    }
    Ok(())
}
