//! Every key of every table: missing, and with a value of each type.

use super::Reads;
use crate::pages::{Teller, hold_lines, joined};
use std::alloc::Global;
use std::test::Fail;

/// What a key is given: nothing, and a value of each type of TOML.
const GIVEN: &str = "nothing\n7\n1.5\n\"x1\"\ntrue\n1979-05-27\n[]\n{}";

/// A table with the keys that it must have, and what stands before its lines. Of a key, it tells what becomes of each
/// value that the key is given, a letter for each: `r` the table is read, `k` a bad key, `f` a float given, `b` a bad
/// value.
#[derive(Clone, Copy)]
struct Table {
    before: &'static str,
    lines: &'static str,
    path: &'static str,
}

impl Teller for Table {
    fn told(&self, alloc: Global, text: &str) -> Result<String, Fail> {
        let key = text.trim_end();
        let others = self.without(alloc, key)?;
        let path = joined(alloc, self.path, key)?;
        let mut letters = String::new(alloc);
        for value in GIVEN.lines() {
            let whole = with_key(alloc, others.as_str(), key, value)?;
            push_letter(alloc, &mut letters, whole.as_str(), path.as_str())?;
        }
        Ok(letters)
    }
}

impl Table {
    /// What stands before the lines, and those of other keys.
    fn without(&self, alloc: Global, key: &str) -> Result<String, Fail> {
        let mut text = String::from_str(alloc, self.before)?;
        for line in self.lines.lines() {
            push_other(&mut text, line, key)?;
        }
        Ok(text)
    }
}

/// Appends a line, unless it is that of this key.
fn push_other(text: &mut String, line: &str, key: &str) -> Result<(), Fail> {
    let (other, _) = line.split_once(" = ").unwrap_or((line, ""));
    if other != key {
        text.push_str(line)?;
        text.push_str("\n")?;
    }
    Ok(())
}

fn with_key(alloc: Global, others: &str, key: &str, value: &str) -> Result<String, Fail> {
    match value {
        "nothing" => Ok(String::from_str(alloc, others)?),
        _ => Ok(format!(in alloc; "{others}{key} = {value}\n")?),
    }
}

/// Appends the letter of what becomes of a text, or all that is told of it where that is no fault at this path.
fn push_letter(alloc: Global, letters: &mut String, text: &str, path: &str) -> Result<(), Fail> {
    let told = Reads.told(alloc, text)?;
    letters.push_str(letter(told.as_str(), path))?;
    Ok(())
}

fn letter<'a>(told: &'a str, path: &str) -> &'a str {
    match told.strip_suffix(path) {
        Some("bad_key ") => "k",
        Some("float_given ") => "f",
        Some("bad_value ") => "b",
        _ if told == "read" => "r",
        _ => told,
    }
}

#[test]
fn every_key_is_read_by_its_rule(rt: HostRuntime) -> Result<(), Fail> {
    let alloc = rt.alloc();
    hold_lines(alloc, &TOP, "", OF_THE_TOP)?;
    hold_lines(alloc, &SECOND_TOP, "", OF_THE_SECOND_TOP)?;
    hold_lines(alloc, &GROUP, "", OF_A_GROUP)?;
    hold_lines(alloc, &COMPONENT, "", OF_A_COMPONENT)?;
    hold_lines(alloc, &JOINT, "", OF_A_JOINT)
}

#[test]
fn every_key_of_a_controller_is_read_by_the_rule_of_its_type(rt: HostRuntime) -> Result<(), Fail> {
    let alloc = rt.alloc();
    for (lines, page) in CONTROLLERS.iter() {
        hold_controller(alloc, lines, page)?;
    }
    Ok(())
}

/// Fails where a key of a controller of these lines is not read by a rule of every type, or by one of its own type.
fn hold_controller(alloc: Global, lines: &'static str, page: &str) -> Result<(), Fail> {
    let controller = Table {
        before: BEFORE_A_CONTROLLER,
        lines,
        path: "controller[0].",
    };
    hold_lines(alloc, &controller, "", OF_EVERY_TYPE)?;
    hold_lines(alloc, &controller, "", page)
}

/// The least controller of each type, with what becomes of the keys that only some types have.
const CONTROLLERS: [(&str, &str); 9] = [
    (A_FORWARD, CLAIMING),
    (A_PASSTHROUGH, CLAIMING),
    (A_PID, PID),
    (A_TRAJECTORY, TRAJECTORY),
    (A_BROADCASTER, BROADCASTER),
    (A_MOCK, MOCK),
    (A_TRANSMISSION, TRANSMISSION),
    (A_DIFFERENTIAL, DIFFERENTIAL),
    (A_LIMITER, LIMITER),
];

/// The least top table, component and joint.
const TOP: Table = Table {
    before: "",
    lines: "version = 1\nupdate_rate = 100\ncycles = 5",
    path: "",
};

/// The least top table of the second version, and a group.
const SECOND_TOP: Table = Table {
    before: "version = 2\n",
    lines: "update_rate = 100\ncycles = 5",
    path: "",
};

const GROUP: Table = Table {
    before: "version = 2\nupdate_rate = 100\ncycles = 5\n[[group]]\n",
    lines: "name = \"g\"\nmembers = []",
    path: "group[0].",
};

const COMPONENT: Table = Table {
    before: "version = 1\nupdate_rate = 100\ncycles = 5\n[[component]]\n",
    lines: "name = \"arm\"\nkind = \"system\"\njoint = []",
    path: "component[0].",
};

const JOINT: Table = Table {
    before: r#"version = 1
update_rate = 100
cycles = 5
[[component]]
name = "arm"
kind = "system"
[[component.joint]]
"#,
    lines: "name = \"j1\"\nvmax = 1",
    path: "component[0].joint[0].",
};

/// What stands before the lines of a controller.
const BEFORE_A_CONTROLLER: &str = "version = 1\nupdate_rate = 100\ncycles = 5\n[[controller]]\n";

/// The lines of the least controller of each type.
const A_FORWARD: &str = "name = \"c1\"\ntype = \"forward\"\nclaims = []";

const A_PASSTHROUGH: &str = "name = \"c1\"\ntype = \"passthrough\"\nclaims = []";

const A_PID: &str = "name = \"c1\"\ntype = \"pid\"\nclaims = []\nreads = []";

const A_TRAJECTORY: &str = "name = \"c1\"\ntype = \"trajectory\"\nclaims = []\nreads = []";

const A_BROADCASTER: &str = "name = \"c1\"\ntype = \"broadcaster\"\nreads = []";

const A_MOCK: &str = "name = \"c1\"\ntype = \"mock\"";

const A_TRANSMISSION: &str = "name = \"c1\"\ntype = \"transmission\"\nclaims = []\nreduction = 1";

const A_DIFFERENTIAL: &str =
    "name = \"c1\"\ntype = \"differential\"\nclaims = []\nreduction1 = 1\nreduction2 = 1";

const A_LIMITER: &str = r#"name = "c1"
type = "limiter"
claims = []
reads = []
min = 0
max = 1
vmax = 1
amax = 1"#;

/// What becomes of the keys of the top table, and of some that it has not.
const OF_THE_TOP: &str = "\
version => krfbbbbb
update_rate => krfbbbbb
cycles => krfbbbbb
component => rbbbbbrb
controller => rbbbbbrb
group => rkkkkkkk
joint => rkkkkkkk
Version => rkkkkkkk";

/// Of those of the second version.
const OF_THE_SECOND_TOP: &str = "\
update_rate => krfbbbbb
cycles => krfbbbbb
component => rbbbbbrb
controller => rbbbbbrb
group => rbbbbbrb
joint => rkkkkkkk";

/// Of the keys of a group.
const OF_A_GROUP: &str = "\
name => kbbrbbbb
members => kbbbbbrb
type => rkkkkkkk";

/// Of the keys of a component.
const OF_A_COMPONENT: &str = "\
name => kbbrbbbb
kind => kbbbbbbb
initial => rbbbbbbb
on_error => rbbbbbbb
fail_read => rbbbbbrb
fail_write => rbbbbbrb
joint => kbbbbbrb
type => rkkkkkkk
vmax => rkkkkkkk";

/// Of the keys of a joint.
const OF_A_JOINT: &str = "\
name => kbbrbbbb
vmax => krfbbbbb
gain => rrfbbbbb
damping => rrfbbbbb
position => rrfbbbbb
velocity => rrfbbbbb
command => rbbbbbrb
state => rbbbbbrb
effort => rkkkkkkk
kind => rkkkkkkk";

/// The keys of every type.
const OF_EVERY_TYPE: &str = "\
name => kbbrbbbb
type => kbbbbbbb
update_rate => rrfbbbbb
fallback => rbbbbbrb";

/// The further keys of a forward and of a passthrough, and some of other types.
const CLAIMING: &str = "\
claims => kbbbbbrb
reads => rkkkkkkk
kp => rkkkkkkk
omax => rkkkkkkk
refuse_config => rkkkkkkk
not_ready => rkkkkkkk
fail_update => rkkkkkkk";

/// Those of a pid.
const PID: &str = "\
claims => kbbbbbrb
reads => kbbbbbrb
kp => rrfbbbbb
ki => rrfbbbbb
kd => rrfbbbbb
imax => rrfbbbbb
omax => rrfbbbbb";

/// Those of a trajectory, and some of other types.
const TRAJECTORY: &str = "\
claims => kbbbbbrb
reads => kbbbbbrb
kp => rkkkkkkk
imax => rkkkkkkk
refuse_config => rkkkkkkk
not_ready => rkkkkkkk
fail_update => rkkkkkkk";

/// Those of a broadcaster, and some of other types.
const BROADCASTER: &str = "\
claims => rkkkkkkk
reads => kbbbbbrb
ki => rkkkkkkk
kd => rkkkkkkk
refuse_config => rkkkkkkk
not_ready => rkkkkkkk
fail_update => rkkkkkkk";

/// Those of a mock, and some of other types.
const MOCK: &str = "\
claims => rbbbbbrb
reads => rbbbbbrb
refuse_config => rbbbrbbb
not_ready => rbbbbbrb
fail_update => rbbbbbrb
kp => rkkkkkkk
joint => rkkkkkkk";

/// Those of a transmission, and some of other types.
const TRANSMISSION: &str = "\
claims => kbbbbbrb
reduction => krfbbbbb
offset => rrfbbbbb
reads => rkkkkkkk
reduction1 => rkkkkkkk
vmax => rkkkkkkk";

/// Those of a differential, and some of other types.
const DIFFERENTIAL: &str = "\
claims => kbbbbbrb
reduction1 => krfbbbbb
reduction2 => krfbbbbb
offset1 => rrfbbbbb
offset2 => rrfbbbbb
reads => rkkkkkkk
reduction => rkkkkkkk
offset => rkkkkkkk";

/// Those of a limiter, and some of other types.
const LIMITER: &str = "\
claims => kbbbbbrb
reads => kbbbbbrb
min => krfbbbbb
max => krfbbbbb
vmax => krfbbbbb
amax => krfbbbbb
omax => rkkkkkkk
offset => rkkkkkkk";
