ghost use Rattle.std.specs.Prelude.{◌≡◌, ◌<◌, [], ◌∷◌, ◌++◌, length, map, All, IfOk, OnOk};
ghost use Rattle.mc_accepted.specs.Switched.{label_in};
ghost use Rattle.mc_switch.specs.Openings.{plain_opening_label, plain_openings};
ghost use Rattle.mc_switch.specs.code.Labels.{KeepsFirst, opening_of};
ghost use Rattle.mc_switch.specs.code.Groups.{plain_groups, groups_of, put_in, put_told, put_at, AreLabelled};

use crate::disjunct::Opened;
use crate::opening::OpeningLabel;
use indexmap::IndexSet;
use mc_base::Memory;
use std::alloc::Global;

/// Disjuncts that deconstruct a variable with one label, in order.
#[derive(Drop)]
pub struct Group<'a> {
    pub label: OpeningLabel<'a>,
    pub disjuncts: Vec<Opened<'a>>,
}

/// Groups, and their labels in the same order. The group of a label is found in the time of one hash.
#[derive(Drop)]
struct Groups<'a> {
    labels: IndexSet<OpeningLabel<'a>>,
    groups: Vec<Group<'a>>,
}

/// The disjuncts that deconstruct a variable, by their labels of it: groups in the order of their first disjuncts.
pub fn split<'a>(
    alloc: Global,
    x: u32,
    disjuncts: Vec<Opened<'a>>,
) -> Result<Vec<Group<'a>>, Memory>
    requires { All KeepsFirst disjuncts.items }
    ensures { IfOk result (λ groups. plain_groups groups.items ≡ groups_of x disjuncts.entry.items) }
{
    let mut found = Groups::new(alloc);
    for disjunct in disjuncts {
        let label = disjunct.label(x);
        found.put_told(alloc, label, disjunct)?;
    }
    let Groups { labels: _, groups } = found;
    Ok(groups)
}

impl<'a> Groups<'a> {
    fn new(alloc: Global) -> Groups<'a>
        ensures labels { result.labels.keys ≡ [] }
        ensures groups { result.groups.items ≡ [] }
    {
        Groups {
            labels: IndexSet::new(alloc),
            groups: Vec::new(alloc),
        }
    }

    /// Puts a disjunct in where it has a label.
    fn put_told(
        &mut self,
        alloc: Global,
        label: Option<OpeningLabel<'a>>,
        disjunct: Opened<'a>,
    ) -> Result<(), Memory>
        requires { AreLabelled self.old.labels.keys self.old.groups.items }
        ensures labels { OnOk result (AreLabelled self.new.labels.keys self.new.groups.items) }
        ensures groups { OnOk result (plain_groups self.new.groups.items
            ≡ put_told (opening_of label.entry) disjunct.entry (plain_groups self.old.groups.items)) }
    {
        match label {
            Some(label) => self.put(alloc, label, disjunct),
            None => Ok(()),
        }
    }

    /// Puts a disjunct in behind the others of its label.
    fn put(
        &mut self,
        alloc: Global,
        label: OpeningLabel<'a>,
        disjunct: Opened<'a>,
    ) -> Result<(), Memory>
        requires { AreLabelled self.old.labels.keys self.old.groups.items }
        ensures labels { OnOk result (AreLabelled self.new.labels.keys self.new.groups.items) }
        ensures groups { OnOk result (plain_groups self.new.groups.items
            ≡ put_in (plain_opening_label label.entry) disjunct.entry (plain_groups self.old.groups.items)) }
    {
        let (k, _is_new) = self.labels.insert_full(label)?;
        if k < self.groups.len() {
            put_at(&mut self.groups, k, disjunct)?;
        } else {
            push_group(alloc, &mut self.groups, label, disjunct)?;
        }
        Ok(())
    }
}

/// Puts a disjunct in at the end of a group.
fn put_at<'a>(groups: &mut Vec<Group<'a>>, k: usize, disjunct: Opened<'a>) -> Result<(), Memory>
    requires { k < length groups.old.items }
    ensures { OnOk result (plain_groups groups.new.items ≡ put_at k disjunct.entry (plain_groups groups.old.items)) }
{
    let group = &mut groups[k];
    group.disjuncts.push(disjunct)?;
    Ok(())
}

/// A new group, of one disjunct.
fn push_group<'a>(
    alloc: Global,
    groups: &mut Vec<Group<'a>>,
    label: OpeningLabel<'a>,
    disjunct: Opened<'a>,
) -> Result<(), Memory>
    ensures { OnOk result (plain_groups groups.new.items
        ≡ plain_groups groups.old.items ++ (plain_opening_label label.entry, disjunct.entry ∷ []) ∷ []) }
{
    let mut disjuncts = Vec::with_capacity(alloc, 1)?;
    disjuncts.push(disjunct)?;
    groups.push(Group { label, disjuncts })?;
    Ok(())
}
