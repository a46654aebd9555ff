//! The table of a controller: its type says which keys it may have.

ghost use Rattle.std.specs.Prelude.{◌≡◌, ◌++◌, [], codes, IfOk};
ghost use Rattle.sequence.specs.Answers.{Answers};
ghost use Rattle.toml.specs.Data.{get_member};
ghost use Rattle.toml.specs.View.{table_view};
ghost use Rattle.cm_document.specs.Described.{controller_form, controller_table, claims_key, reads_key};
ghost use Rattle.cm_document.specs.Forms.{list_of, name_in};
ghost use Rattle.cm_document.specs.Tables.{defaulted_read, walk};

use crate::forms::{ListOf, One, TableForm};
use crate::keys::Keys;
use crate::own_keys::{none_but_listed, own_at};
use crate::states::{AllOrList, ReadList};
use crate::values::{Interface, Named, Whole};
use crate::words::{ControllerKinds, WordOf};
use cm_document::{CtlDesc, CtlKind, DescFault, KeyAsked};
use iface_names::{IfaceName, Name};
use sequence::{Seq, Shared};
use std::alloc::{AllocError, Global};

/// The table of a controller.
#[derive(Drop)]
pub struct ControllerTable {
    /// Every state that is described: `all` that can be read.
    pub all: Shared<Seq<IfaceName>>,
}

impl TableForm for ControllerTable {
    type Read = CtlDesc;

    ghost table_form = { λ s. controller_form s.all };

    fn read(&self, keys: &Keys<'_>) -> Result<CtlDesc, DescFault> {
        let kind = keys.required("type", &One(WordOf(ControllerKinds)))?;
        read_as(keys, kind, &self.all)
    }
}

/// The table of a controller of this type.
#[tactic(auto, unfolding(cm_document::specs::Described::controller_table))]
fn read_as(
    keys: &Keys<'_>,
    kind: CtlKind,
    all: &Shared<Seq<IfaceName>>,
) -> Result<CtlDesc, DescFault>
    ensures { Answers DescFault.Memory
        ((walk (controller_table all.now kind)).read keys.now.prefix.now (table_view keys.now.table.now)) result }
{
    none_but_listed(keys, kind)?;
    let name = keys.required("name", &One(Named))?;
    keys.required("type", &One(WordOf(ControllerKinds)))?;
    let rate = keys.defaulted("update_rate", &One(Whole), 0)?;
    let fallback = fallback_at(keys)?;
    let claims = claims_at(keys, kind)?;
    let reads = reads_at(keys, kind, all)?;
    let own = own_at(keys, kind)?;
    Ok(CtlDesc {
        name,
        rate,
        fallback,
        params: own.made_of(claims.as_slice(), reads.get().as_slice()),
        claims,
        reads,
    })
}

/// The fallbacks of a controller, none if the key is missing.
fn fallback_at(keys: &Keys<'_>) -> Result<Seq<Name>, DescFault>
    ensures { Answers DescFault.Memory
        (defaulted_read (list_of name_in) [] (keys.now.prefix.now ++ codes "fallback")
        (get_member (codes "fallback") (table_view keys.now.table.now))) result }
{
    keys.defaulted("fallback", &ListOf(Named), Seq::new(keys.alloc))
}

/// What a controller of this type claims.
fn claims_at(keys: &Keys<'_>, kind: CtlKind) -> Result<Seq<IfaceName>, DescFault>
    ensures { Answers DescFault.Memory
        ((claims_key kind).form.read keys.now.prefix.now (table_view keys.now.table.now)) result }
{
    match kind.claims_asked() {
        KeyAsked::NoKey => Ok(Seq::new(keys.alloc)),
        KeyAsked::Optional => keys.defaulted("claims", &ListOf(Interface), Seq::new(keys.alloc)),
        KeyAsked::Listed | KeyAsked::ListedOrAll => keys.required("claims", &ListOf(Interface)),
    }
}

/// What it reads.
fn reads_at(
    keys: &Keys<'_>,
    kind: CtlKind,
    all: &Shared<Seq<IfaceName>>,
) -> Result<Shared<Seq<IfaceName>>, DescFault>
    ensures { Answers DescFault.Memory
        ((reads_key all.now kind).form.read keys.now.prefix.now (table_view keys.now.table.now)) result }
{
    match kind.reads_asked() {
        KeyAsked::NoKey => Ok(no_reads(keys.alloc)?),
        KeyAsked::Optional => {
            let none = no_reads(keys.alloc)?;
            keys.defaulted("reads", &ReadList, none)
        }
        KeyAsked::Listed => keys.required("reads", &ReadList),
        KeyAsked::ListedOrAll => keys.required("reads", &AllOrList { all }),
    }
}

/// Of a controller that reads nothing.
fn no_reads(alloc: Global) -> Result<Shared<Seq<IfaceName>>, AllocError>
    ensures { IfOk result (λ reads. reads ≡ []) }
{
    Shared::new(alloc, Seq::new(alloc))
}
