// The sections of relocations that are in several tables.
ghost use Rattle.std.specs.Prelude.{◌≡◌};
ghost use Rattle.rv_reloc.specs.AppliesTo.{end_of, later_start, sooner_end};

use elf_image::Section;

/// The sections that relocations apply to. Of several, two are kept: a field is in all sections if it is in the one
/// that starts last and in the one that ends first.
#[derive(Clone, Copy)]
pub enum AppliesTo<'a> {
    One(&'a Section<'a>),
    Several {
        last_start: &'a Section<'a>,
        first_end: &'a Section<'a>,
    },
}

fn later_start<'a>(one: &'a Section<'a>, other: &'a Section<'a>) -> &'a Section<'a>
    ensures { result.now ≡ later_start one.now other.now }
{
    if one.addr < other.addr { other } else { one }
}

fn end_of(section: &Section) -> u128
    ensures { result ≡ end_of section.now }
{
    section.addr as u128 + section.size as u128
}

fn sooner_end<'a>(one: &'a Section<'a>, other: &'a Section<'a>) -> &'a Section<'a>
    ensures { result.now ≡ sooner_end one.now other.now }
{
    if end_of(other) < end_of(one) {
        other
    } else {
        one
    }
}

impl<'a> AppliesTo<'a> {
    ghost use Rattle.rv_reloc.specs.AppliesTo.{sections_of, last_start, first_end, joined};

    fn last_start(&self) -> &'a Section<'a>
        ensures { result.now ≡ last_start self.now }
    {
        match self {
            AppliesTo::One(section) => section,
            AppliesTo::Several { last_start, .. } => last_start,
        }
    }

    fn first_end(&self) -> &'a Section<'a>
        ensures { result.now ≡ first_end self.now }
    {
        match self {
            AppliesTo::One(section) => section,
            AppliesTo::Several { first_end, .. } => first_end,
        }
    }

    /// The sections of both.
    pub fn joined(&self, other: &AppliesTo<'a>) -> AppliesTo<'a>
        ensures { sections_of result ≡ joined self.now other.now }
    {
        AppliesTo::Several {
            last_start: later_start(self.last_start(), other.last_start()),
            first_end: sooner_end(self.first_end(), other.first_end()),
        }
    }
}
