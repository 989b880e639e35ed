//! Templates for names.

ghost use Rattle.std.specs.Prelude.{◌≡◌, ◌≤◌, ◌+◌, ◌++◌, OnOk, IfErr, length};
ghost use Rattle.ndn_names.specs.View.{components};
ghost use Rattle.name_patterns.specs.Template as template;
ghost use Rattle.name_patterns.specs.Template.{between, CanStand};
ghost use Rattle.name_patterns.specs.Shown.{part_of};

use crate::captures::Captures;
use crate::text::Text;
use ndn_names::{MAX_COMPONENTS, Name, NameBuf, NameFault};
use std::alloc::Global;
use std::marker::Model;

/// A part of a template.
#[derive(Debug, Drop)]
pub enum Part {
    /// A group, given by its number. The group stands for the components that it captures.
    Group(u8),
    /// A component.
    Single(Text),
}

impl Part {
    ghost use Rattle.std.specs.Prelude.{◌≡◌};
    ghost use Rattle.name_patterns.specs.Template.{part_len};
    ghost use Rattle.name_patterns.specs.Shown.{part_of};

    /// Returns the number of components that the part expands to.
    fn len(&self, captures: &Captures) -> usize
        ensures { result ≡ part_len captures.now (part_of self.now) }
    {
        match self {
            Part::Group(group) => captures
                .group(usize::from(*group))
                .map_or(0, |(start, end)| end.saturating_sub(start)),
            Part::Single(_) => 1,
        }
    }
}

/// A template for names: a sequence of parts. Each part is a component, or a group of a pattern.
#[derive(Debug, Drop)]
pub struct Template {
    pub(crate) parts: Vec<Part>,
}

impl Model for Template {
    ghost use Rattle.std.specs.Prelude.{List};
    ghost use Rattle.name_patterns.specs.Template.{PlainPart, CanStand};

    ghost Value = { List PlainPart };

    ghost use Rattle.std.specs.Prelude.{map};
    ghost use Rattle.std.specs.List.{AllByRecursion};
    ghost use Rattle.name_patterns.specs.Shown.{part_of};

    ghost view = { λ template. map part_of template.parts.items };

    ghost invariant = { λ template. AllByRecursion CanStand (map part_of template.parts.items) };
}

impl Template {
    ghost use Rattle.std.specs.Prelude.{◌≡◌, ◌↔◌, ◌<◌, ◌⊎◌, Err, IfOk, IfErr, length, nat_lt, sum_by};
    ghost use Rattle.ndn_names.specs.View.{components};
    ghost use Rattle.name_patterns.specs.Template.{expansion_of, part_len, AreThere};

    /// Returns the name that the template expands to. `captures` are the positions of the groups in
    /// `name`.
    ///
    /// If the expanded name would have more than 64 components, returns `TooManyComponents` before
    /// any allocation. Returns `Memory` if memory runs out.
    pub fn expand(
        &self,
        alloc: Global,
        captures: &Captures,
        name: Name<'_>,
    ) -> Result<NameBuf, NameFault>
        // The captures contain each group of the template, at positions within the name.
        requires { AreThere captures.now (components name) self.now }
        ensures ok { IfOk result
            (λ expanded. expanded ≡ expansion_of self.now captures.now (components name.entry)) }
        ensures long { (result ≡ Err NameFault.TooManyComponents)
            ↔ (64 < length (expansion_of self.now captures.now (components name.entry))) }
        ensures fault { IfErr result
            (λ fault. (fault ≡ NameFault.TooManyComponents) ⊎ (fault ≡ NameFault.Memory)) }
    {
        if self.is_too_long(captures) {
            return Err(NameFault::TooManyComponents);
        }
        let mut expanded = NameBuf::new(alloc);
        for part in &self.parts {
            append_part(&mut expanded, part, captures, name)?;
        }
        Ok(expanded)
    }

    /// Returns whether the expanded name would have more than 64 components. If the result is true,
    /// `expand` returns `TooManyComponents`. Nothing is allocated.
    pub fn is_too_long(&self, captures: &Captures) -> bool
        ensures { result ≡ nat_lt 64 (sum_by (part_len captures.now) self.now) }
    {
        let mut room = MAX_COMPONENTS;
        for part in &self.parts {
            let len = part.len(captures);
            if room < len {
                return true;
            }
            room -= len;
        }
        false
    }
}

/// Appends to `expanded` the components that a part expands to.
fn append_part(
    expanded: &mut NameBuf,
    part: &Part,
    captures: &Captures,
    name: Name<'_>,
) -> Result<(), NameFault>
    ensures ok { OnOk result
        (expanded.new ≡ expanded.old ++ template.part_of captures.now (components name.entry)
        (part_of part.now)) }
    // If the part is a group or a valid component, and `expanded` with the appended components has
    // at most 64 components, the call fails only if memory runs out.
    ensures room { CanStand (part_of part.now)
        → length expanded.old + length
        (template.part_of captures.now (components name.entry) (part_of part.now)) ≤ 64
        → IfErr result (λ fault. fault ≡ NameFault.Memory) }
{
    match part {
        Part::Group(group) => {
            if let Some((start, end)) = captures.group(usize::from(*group)) {
                append_between(expanded, name, start, end)?;
            }
        }
        Part::Single(text) => expanded.append(text.kind, &text.value)?,
    }
    Ok(())
}

/// Appends to `expanded` the components of `name` from position `start` up to, but not including,
/// position `end`.
fn append_between(
    expanded: &mut NameBuf,
    name: Name<'_>,
    start: usize,
    end: usize,
) -> Result<(), NameFault>
    ensures ok { OnOk result
        (expanded.new ≡ expanded.old ++ between (components name.entry) (start, end)) }
    // If `expanded` with the appended components has at most 64 components, the call fails only if
    // memory runs out.
    ensures room { length expanded.old + length (between (components name.entry) (start, end)) ≤ 64
        → IfErr result (λ fault. fault ≡ NameFault.Memory) }
{
    let mut place = 0;
    for component in name.iter() {
        if start <= place && place < end {
            expanded.append(component.kind, component.value)?;
        }
        place += 1;
    }
    Ok(())
}
