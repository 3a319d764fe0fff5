//! Causal contexts: finite sets of dots.
ghost use Rattle.std.specs.Prelude.{◌≡◌, ℕ, ◌==◌, ◌<◌, ◌≤◌, ◌^◌, ◌↔◌, IsTrue, IfOk};
ghost use Rattle.std.specs.Prelude.{IsOkUnless, OnOk, Ok, string_bytes, max};
ghost use Rattle.std.specs.Prelude.{OnErr, List, IfSome, IfNone, length, ◌++◌};
ghost use Rattle.std.specs.List.{AllWithin};
ghost use Rattle.std.specs.FinSet as set;
ghost use Rattle.mvd_dots.specs.Entry.{EntryValue, IsEntry, RisesAbove, Among};
ghost use Rattle.mvd_dots.specs.Answer.{IsAnswer, IsReading};
ghost use Rattle.mvd_dots.specs.Text.{IsTextOf, text_of};
ghost use Rattle.mvd_dots.specs.Context.{DotSet, HoldsDot, AreInRange, IsBaseOf, AreEntries, AreEntriesOf, IsEntryAt};
ghost use Rattle.mvd_dots.specs.Context.{entry_dots, set_of, entries_of, bases_of, base_of, loose_of, greatest};

use crate::dots::Dot;
use crate::entries::Entry;
use crate::refusals::Refusal;
use crate::texts::{print_entries, read_entries};
use std::alloc::{AllocError, Global};
use std::marker::Model;

/// A finite set of dots. It keeps one entry for each site that has a dot, by rising site.
#[derive(Drop)]
pub struct Context {
    alloc: Global,
    entries: Vec<Entry>,
}

impl Model for Context {
    ghost use Rattle.mvd_dots.specs.Context.{DotSet, dot_set_code, set_of, AreEntries};

    ghost Value = { DotSet };

    ghost coded = { dot_set_code };

    ghost view = { λ c. set_of c.entries.items };

    ghost invariant = { λ c. AreEntries c.entries.items };
}

impl Context {
    /// The empty context.
    pub fn new(alloc: Global) -> Context
        ensures { result ≡ set.empty }
    {
        Context {
            alloc,
            entries: Vec::new(alloc),
        }
    }

    pub fn contains(&self, dot: Dot) -> bool
        ensures { result ≡ set.contains self.now dot }
    {
        match self.find(dot.site()) {
            Some(entry) => entry.contains(dot.counter()),
            None => false,
        }
    }

    /// Whether it has no dot.
    pub fn is_empty(&self) -> bool
        ensures none { IsTrue result ↔ (self.now ≡ set.empty) }
        ensures count { result ≡ (set.len self.now == 0) }
    {
        self.entries().is_empty()
    }

    /// The greatest counter of the site, or 0 where it has none.
    pub fn max_of(&self, site: u32) -> u64
        ensures greatest { result ≡ greatest site self.now }
        ensures in_range { result < 2 ^ 48 }
    {
        match self.find(site) {
            Some(entry) => entry.greatest(),
            None => 0,
        }
    }

    /// The entries, one for each site that has a dot, by rising site.
    pub fn entries(&self) -> &[Entry]
        ensures entries { result.now ≡ entries_of self.now }
        ensures of_set { AreEntriesOf self.now result.now }
        ensures in_range { AreInRange self.now }
    {
        self.entries.as_slice()
    }

    /// Each site that has a dot, by rising site, with its base.
    pub fn bases(&self) -> Result<Vec<(u32, u64)>, Refusal>
        ensures bases { IfOk result (λ bases. bases.items ≡ bases_of self.now) }
        ensures memory { IsOkUnless result Refusal.Memory }
    {
        let mut bases = Vec::new(self.alloc);
        for entry in &self.entries {
            bases.push((entry.site, entry.base))?;
        }
        Ok(bases)
    }

    /// The counters of the site above its base, rising.
    pub fn loose(&self, site: u32) -> &[u64]
        ensures { result.now ≡ loose_of self.now site }
    {
        match self.find(site) {
            Some(entry) => &entry.loose,
            None => &[],
        }
    }

    pub fn copy(&self) -> Result<Context, Refusal>
        ensures { IsAnswer result (Ok self.now) }
    {
        let mut entries = Vec::with_capacity(self.alloc, self.entries.len())?;
        copy_onto(self.alloc, &mut entries, &self.entries)?;
        Ok(Context {
            alloc: self.alloc,
            entries,
        })
    }

    /// Gives back the places that were kept for more entries.
    pub fn shrink_to_fit(&mut self)
        ensures { self.new ≡ self.old }
    {
        self.entries.shrink_to_fit();
    }

    pub fn same(&self, other: &Context) -> bool
        ensures { IsTrue result ↔ (self.now ≡ other.now) }
    {
        same_entries(&self.entries, &other.entries)
    }

    /// Whether each dot of the other is here too. It takes no memory.
    pub fn includes(&self, other: &Context) -> bool
        ensures { IsTrue result ↔ (set.union self.now other.now ≡ self.now) }
    {
        self.includes_entries(&other.entries)
    }

    pub fn add(&mut self, dot: Dot) -> Result<(), Refusal>
        ensures ok { OnOk result (self.new ≡ set.insert self.old dot) }
        ensures unchanged { OnErr result (self.new ≡ self.old) }
        ensures memory { IsOkUnless result Refusal.Memory }
    {
        let single = Entry::of_dot(self.alloc, dot)?;
        let i = place(&self.entries, dot.site());
        if i < self.entries.len() {
            let entry = &self.entries[i];
            if entry.site == dot.site() {
                let joined = entry.join(self.alloc, &single)?;
                self.entries[i] = joined;
                return Ok(());
            }
        }
        reserve_one(&mut self.entries)?;
        self.entries.insert(i, single)?;
        Ok(())
    }

    pub fn join(&mut self, other: &Context) -> Result<(), Refusal>
        ensures ok { OnOk result (self.new ≡ set.union self.old other.now) }
        ensures unchanged { OnErr result (self.new ≡ self.old) }
        ensures memory { IsOkUnless result Refusal.Memory }
    {
        self.entries = joined_entries(self.alloc, &self.entries, &other.entries)?;
        Ok(())
    }

    /// Adds all dots of one site at once, where the context has none of this or a greater site.
    pub fn add_entry(&mut self, site: u32, base: u64, loose: &[u64]) -> Result<(), Refusal>
        requires form { IsEntry (record { site = site; base = base; loose = loose.now }) }
        requires above { (held n : ℕ) → HoldsDot self.old held n → held < site }
        ensures ok { OnOk result (self.new ≡
            set.union self.old (entry_dots (record { site = site; base = base; loose = loose.now }))) }
        ensures unchanged { OnErr result (self.new ≡ self.old) }
        ensures memory { IsOkUnless result Refusal.Memory }
    {
        let loose = Vec::from_slice(self.alloc, loose)?;
        reserve_one(&mut self.entries)?;
        self.entries.push(Entry { site, base, loose })?;
        Ok(())
    }

    /// The one text of the set.
    pub fn print(&self) -> Result<String, Refusal>
        ensures text { IfOk result (λ text. string_bytes text ≡ text_of self.now) }
        ensures memory { IsOkUnless result Refusal.Memory }
    {
        Ok(print_entries(self.alloc, &self.entries)?)
    }

    /// The set whose text this is.
    pub fn read(alloc: Global, text: &str) -> Result<Context, Refusal>
        ensures { IsReading (λ dots. IsTextOf dots text.now) Refusal.BadContext result }
    {
        Ok(Context {
            alloc,
            entries: read_entries(alloc, text.as_bytes())?,
        })
    }

    fn includes_entries(&self, entries: &[Entry]) -> bool
        requires { AreEntries entries.now }
        ensures { IsTrue result ↔ (set.union self.now (set_of entries.now) ≡ self.now) }
    {
        for entry in entries {
            if !self.includes_entry(entry) {
                return false;
            }
        }
        true
    }

    fn includes_entry(&self, entry: &Entry) -> bool
        requires { IsEntry entry.now }
        ensures { IsTrue result ↔ (set.union self.now (entry_dots entry.now) ≡ self.now) }
    {
        match self.find(entry.site) {
            Some(held) => held.includes(entry),
            None => false,
        }
    }

    fn find(&self, site: u32) -> Option<&Entry>
        ensures found { IfSome result (λ entry. IsEntryAt self.now site entry.now) }
        ensures missing { IfNone result ((n : ℕ) → HoldsDot self.now site n → ⊥) }
        ensures in_range { AreInRange self.now }
    {
        let i = place(&self.entries, site);
        if i < self.entries.len() {
            let entry = &self.entries[i];
            if entry.site == site {
                return Some(entry);
            }
        }
        None
    }
}

/// A set has one list of entries and one text, and no other set has these.
pub fn one_form()
    ensures of_entries { (es : List EntryValue) → AreEntries es →
        AreInRange (set_of es) × (entries_of (set_of es) ≡ es) }
    ensures of_set { (dots : DotSet) → AreInRange dots →
        AreEntries (entries_of dots) × (set_of (entries_of dots) ≡ dots) }
    ensures entries { (s t : DotSet) → AreInRange s → AreInRange t → (s ≡ t) ↔ (entries_of s ≡ entries_of t) }
    ensures texts { (s t : DotSet) → AreInRange s → AreInRange t → (s ≡ t) ↔ (text_of s ≡ text_of t) }
{}

/// The base of a site is the greatest number with all of the counters 1 to it in the set, and its
/// loose counters are those above the base, rising.
pub fn bases_and_loose()
    ensures base { (dots : DotSet) (site : ℕ) → AreInRange dots → IsBaseOf dots site (base_of dots site) }
    ensures loose { (dots : DotSet) (site n : ℕ) → AreInRange dots →
        Among (loose_of dots site) n ↔ (base_of dots site < n) × HoldsDot dots site n }
    ensures rising { (dots : DotSet) (site : ℕ) → AreInRange dots →
        RisesAbove (base_of dots site) (loose_of dots site) }
{}

/// The greatest counter of a site bounds its counters, and is one of them or 0. That of a union is
/// the greater of the two.
pub fn greatest_counter()
    ensures bound { (dots : DotSet) (site n : ℕ) → HoldsDot dots site n → n ≤ greatest site dots }
    ensures attained { (dots : DotSet) (site : ℕ) → 0 < greatest site dots → HoldsDot dots site (greatest site dots) }
    ensures union { (s t : DotSet) (site : ℕ) →
        greatest site (set.union s t) ≡ max (greatest site s) (greatest site t) }
{}

/// How many entries are of a lower site.
fn place(entries: &[Entry], site: u32) -> usize
    requires { AreEntries entries.now }
    ensures bound { result ≤ length entries.now }
    ensures below { AllWithin (λ entry. entry.site < site) entries.now 0 result }
    ensures above { AllWithin (λ entry. site ≤ entry.site) entries.now result (length entries.now) }
{
    let mut low = 0;
    let mut high = entries.len();
    while low < high {
        let middle = low + (high - low) / 2;
        let entry = &entries[middle];
        if entry.site < site {
            low = middle + 1;
        } else {
            high = middle;
        }
    }
    low
}

fn same_entries(first: &[Entry], second: &[Entry]) -> bool
    ensures { IsTrue result ↔ (first.now ≡ second.now) }
{
    if first.len() != second.len() {
        return false;
    }
    for i in 0..first.len() {
        if !first[i].same(&second[i]) {
            return false;
        }
    }
    true
}

/// The entries with the dots of both.
fn joined_entries(
    alloc: Global,
    first: &[Entry],
    second: &[Entry],
) -> Result<Vec<Entry>, AllocError>
    requires first_form { AreEntries first.now }
    requires second_form { AreEntries second.now }
    ensures form { IfOk result (λ joined. AreEntries joined.items) }
    ensures union { IfOk result (λ joined. set_of joined.items ≡ set.union (set_of first.now) (set_of second.now)) }
{
    let mut out = Vec::with_capacity(alloc, 1)?;
    let mut i = 0;
    let mut j = 0;
    while i < first.len() && j < second.len() {
        let left = &first[i];
        let right = &second[j];
        if left.site < right.site {
            out.push(left.copy(alloc)?)?;
            i += 1;
        } else if right.site < left.site {
            out.push(right.copy(alloc)?)?;
            j += 1;
        } else {
            out.push(left.join(alloc, right)?)?;
            i += 1;
            j += 1;
        }
    }
    copy_onto(alloc, &mut out, &first[i..])?;
    copy_onto(alloc, &mut out, &second[j..])?;
    Ok(out)
}

/// Makes room for a first entry, and for no others: most lists have one entry, and a list would begin with room for
/// four.
fn reserve_one(entries: &mut Vec<Entry>) -> Result<(), AllocError>
    ensures { entries.new.items ≡ entries.old.items }
{
    if entries.is_empty() {
        entries.reserve_exact(1)?;
    }
    Ok(())
}

/// Pushes a copy of each entry.
fn copy_onto(alloc: Global, out: &mut Vec<Entry>, entries: &[Entry]) -> Result<(), AllocError>
    ensures { OnOk result (out.new.items ≡ out.old.items ++ entries.now) }
{
    for entry in entries {
        out.push(entry.copy(alloc)?)?;
    }
    Ok(())
}
