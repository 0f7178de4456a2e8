// Look-ups of a BIND's children, by index and by name, in one bundle and in two (rules 6.1 and 6.2). Each call checks a bundle once, to
// its innermost children, and answers its fault before its own; a child that is not there is NotFound. A part that is handed back lies in
// the lent content.
#![tactic(auto)]

mod child_walk;

ghost use Rattle.std.specs.Prelude.{◌≡◌, [], false, MatchResult};
ghost use Rattle.fields.specs.Fault.{fault_number, number_of};
ghost use Rattle.bind_lookup.specs.ChildLookup.{count_answer, place_found, place_answer, count_of, placed, place_of, named_place, part_at, type_at, name_at};
ghost use Rattle.bind_lookup.specs.EitherLookup.{source_found, source_answer, either_found, either_answer, either_place, either_part, either_data, Finds, Neither};

use bind_layout::bind_parts;
use fields::fault::Fault;

// How many children there are. In each of these answers `clean` is the mark of the whole bundle answered from (rule 13.4).
#[derive(Clone, Copy, Debug, PartialEq, Eq)]
pub struct ChildCount {
    pub count: usize,
    pub clean: bool,
}

// Where a child's data stands in the content and how long it is.
#[derive(Clone, Copy, Debug, PartialEq, Eq)]
pub struct Place {
    pub at: usize,
    pub len: usize,
    pub clean: bool,
}

// Which of two bundles a child is in: the site's or the default one.
#[derive(Clone, Copy, Debug, PartialEq, Eq)]
pub enum Source {
    Site,
    Default,
}

// A place in the bundle that the source names.
#[derive(Clone, Copy, Debug, PartialEq, Eq)]
pub struct EitherPlace {
    pub source: Source,
    pub place: Place,
}

// A child's data, which bundle it is a part of, and that bundle's mark.
#[derive(Clone, Copy)]
pub struct Found<'a> {
    pub part: &'a [u8],
    pub source: Source,
    pub clean: bool,
}

// Where the data of child i stands in a content that has it, and this mark.
fn place_at(content: &[u8], i: usize, mark: bool) -> Place
    ensures { place_found result ≡ placed 0 mark content.now i }
{
    Place {
        at: content.len() - child_walk::data_from(content, i).len(),
        len: bind_parts::size_of(child_walk::headers_from(content, i)),
        clean: mark,
    }
}

// How many children the content has.
pub fn child_count(content: &[u8]) -> Result<ChildCount, Fault>
    ensures { count_answer result ≡ count_of content.now }
{
    let clean = content::bind_check(content)?;
    Ok(ChildCount {
        count: bind_parts::child_count(content),
        clean,
    })
}

// Where the data of child i stands; indices are counted from 0.
pub fn child_place(content: &[u8], i: usize) -> Result<Place, Fault>
    ensures { place_answer result ≡ place_of content.now i }
{
    let clean = content::bind_check(content)?;
    if bind_parts::child_count(content) <= i {
        return Err(Fault::NotFound);
    }
    Ok(place_at(content, i, clean))
}

// Where the data of the first child of this name stands. The name may be any bytes.
pub fn named_place(content: &[u8], name: &[u8]) -> Result<Place, Fault>
    ensures { place_answer result ≡ named_place content.now name.now }
{
    let mark = content::bind_check(content)?;
    let i = child_walk::index_of(content, name).ok_or(Fault::NotFound)?;
    Ok(place_at(content, i, mark))
}

// Why the look-up of child i is refused, if it is.
pub fn child_fault(content: &[u8], i: usize) -> Result<(), Fault>
    ensures { number_of result ≡ (place_of content.now i).number }
{
    child_place(content, i)?;
    Ok(())
}

// Why the look-up of a name is refused, if it is.
pub fn named_fault(content: &[u8], name: &[u8]) -> Result<(), Fault>
    ensures { number_of result ≡ (named_place content.now name.now).number }
{
    named_place(content, name)?;
    Ok(())
}

// The data of child i, no bytes where refused. An empty child looks like a refusal: ask child_fault first.
pub fn child(content: &[u8], i: usize) -> &[u8]
    ensures { result.now ≡ part_at (place_of content.now i) content.now }
{
    match child_place(content, i) {
        Ok(place) => fields::slice::part(content, place.at, place.len),
        Err(_) => &content[..0],
    }
}

// The data of the first child of this name, no bytes where refused. An empty child looks like a refusal: ask named_fault first.
pub fn named<'a>(content: &'a [u8], name: &[u8]) -> &'a [u8]
    ensures { result.now ≡ part_at (named_place content.now name.now) content.now }
{
    match named_place(content, name) {
        Ok(place) => fields::slice::part(content, place.at, place.len),
        Err(_) => &content[..0],
    }
}

// The text of child i's type, no bytes where refused. An empty type looks like a refusal: ask child_fault first.
pub fn child_type(content: &[u8], i: usize) -> &[u8]
    ensures { result.now ≡ type_at content.now i }
{
    match child_fault(content, i) {
        Ok(()) => bind_parts::type_of(child_walk::headers_from(content, i)),
        Err(_) => &content[..0],
    }
}

// Child i's name, no bytes where refused. An empty name looks like a refusal: ask child_fault first.
pub fn child_name(content: &[u8], i: usize) -> &[u8]
    ensures { result.now ≡ name_at content.now i }
{
    match child_fault(content, i) {
        Ok(()) => fields::text::text_of(child_walk::names_from(bind_parts::table_of(content), i)),
        Err(_) => &content[..0],
    }
}

// Where the data of the first child of this name stands, in the site's bundle, else in the default one. A fault of either refuses.
pub fn either_place(site: &[u8], default: &[u8], name: &[u8]) -> Result<EitherPlace, Fault>
    ensures { either_answer result ≡ either_place site.now default.now name.now }
{
    let site_clean = content::bind_check(site)?;
    let default_clean = content::bind_check(default)?;
    if let Some(i) = child_walk::index_of(site, name) {
        return Ok(EitherPlace {
            source: Source::Site,
            place: place_at(site, i, site_clean),
        });
    }
    let i = child_walk::index_of(default, name).ok_or(Fault::NotFound)?;
    Ok(EitherPlace {
        source: Source::Default,
        place: place_at(default, i, default_clean),
    })
}

// Why the look-up in two bundles is refused, if it is.
pub fn either_fault(site: &[u8], default: &[u8], name: &[u8]) -> Result<(), Fault>
    ensures { number_of result ≡ (either_place site.now default.now name.now).number }
{
    either_place(site, default, name)?;
    Ok(())
}

// Which bundle it found the name in, by itself; none where refused.
pub fn either_source(site: &[u8], default: &[u8], name: &[u8]) -> Option<Source>
    ensures { source_answer result ≡ (either_place site.now default.now name.now).source }
{
    match either_place(site, default, name) {
        Ok(found) => Some(found.source),
        Err(_) => None,
    }
}

// The part at a place in one of the two.
fn either_part<'a>(site: &'a [u8], default: &'a [u8], found: EitherPlace) -> &'a [u8]
    ensures { result.now ≡ either_part (either_found found) site.now default.now }
{
    let place = found.place;
    match found.source {
        Source::Site => fields::slice::part(site, place.at, place.len),
        Source::Default => fields::slice::part(default, place.at, place.len),
    }
}

// The data of the child found in one of the two, no bytes where refused. An empty child looks like a refusal: ask either_fault first.
pub fn either<'a>(site: &'a [u8], default: &'a [u8], name: &[u8]) -> &'a [u8]
    ensures { result.now ≡ either_data site.now default.now name.now }
{
    match either_place(site, default, name) {
        Ok(found) => either_part(site, default, found),
        Err(_) => &site[..0],
    }
}

// The data of the child found in one of the two, in which, and the mark, in one answer.
pub fn find<'a>(site: &'a [u8], default: &'a [u8], name: &[u8]) -> Result<Found<'a>, Fault>
    ensures { MatchResult result (λ f. Finds site.now default.now name.now 0 f.part.now (source_found f.source) f.clean) (λ e. Finds site.now default.now name.now (fault_number e) [] Neither false) }
{
    let found = either_place(site, default, name)?;
    Ok(Found {
        part: either_part(site, default, found),
        source: found.source,
        clean: found.place.clean,
    })
}
