// The calls under C names, for a program in C or Rust to link: `rt lib` in this folder. A slice is a pointer and a
// length there, an array behind a reference a pointer. C has no struct of lent lists: each stays a parameter, and the
// structs are made here.
#![tactic(auto)]

ghost use Rattle.std.specs.Prelude.{◌≡◌};
ghost use Rattle.definitions.specs.Lent.{position_from};
ghost use Rattle.definitions.specs.SiteCalls.{LabelPromise, MatchPromise, LetterPromise};
ghost use Rattle.definitions.specs.WholeCalls.{BytesPromise};
ghost use Rattle.hoistgarlic.specs.Told.{number_of, AsNumber, match_number, match_place, match_distance, MatchTold};
ghost use Rattle.hoistgarlic.specs.Told.{whole_number, whole_sites, whole_orbits, WholeTold};

use base_cell::verdicts::Labelling;
use base_cell::{Orbits, label_sites};
use definitions::{AnswerCounts, Basis, Cells, Fit, Point, Position, Refusal, Text, Verdict};
use job_standardize::standardize_bytes;
use symmetrize_match::match_coordinates;
use symmetrize_standardize::Answer;
use symmetrize_wyckoff::arguments::Lettering;
use symmetrize_wyckoff::letter_sites;

// the place of a match that misses
const MISSES: usize = 125;

fn number_of(v: Verdict) -> usize
    ensures { result ≡ number_of v }
{
    match v {
        Ok(()) => 0,
        Err(refusal) => usize::from(refusal),
    }
}

// `label_sites`
#[unsafe(no_mangle)]
pub extern "C" fn hoistgarlic_label(
    sites: usize,
    count: usize,
    images: &[u8],
    mapping: &[u16],
    labels: &mut [u16],
    multiplicities: &mut [u16],
) -> usize
    ensures { AsNumber
        (LabelPromise
        (record { sites = sites; count = count; images = images.now; mapping = mapping.now })
        (record { labels = labels.old; multiplicities = multiplicities.old })
        (record { labels = labels.new; multiplicities = multiplicities.new })) result }
{
    let labelling = Labelling {
        sites,
        count,
        images,
        mapping,
    };
    let mut orbits = Orbits {
        labels,
        multiplicities,
    };
    number_of(label_sites(&labelling, &mut orbits))
}

// what is told of a match: its number, and the place and the distance in lent cells
fn tell_match(r: Result<Option<Fit>, Refusal>, place: &mut usize, distance: &mut f64) -> usize
    ensures { (result ≡ match_number r) × (place.new ≡ match_place r) × (distance.new ≡ match_distance r) }
{
    match r {
        Ok(Some(fit)) => {
            *place = fit.place;
            *distance = fit.distance;
            0
        }
        Ok(None) => {
            *place = MISSES;
            *distance = 0.0;
            0
        }
        Err(refusal) => {
            *place = 0;
            *distance = 0.0;
            usize::from(refusal)
        }
    }
}

// `match_coordinates`
#[unsafe(no_mangle)]
pub extern "C" fn hoistgarlic_match(
    basis: &Basis,
    position: &Cells,
    text: &Text,
    symprec: f64,
    place: &mut usize,
    distance: &mut f64,
) -> usize
    ensures { MatchTold
        (MatchPromise basis.now (position_from position.now) text.now symprec)
        result place.new distance.new }
{
    let r = match_coordinates(*basis, Position::from(*position), text, symprec);
    tell_match(r, place, distance)
}

// `letter_sites`
#[unsafe(no_mangle)]
pub extern "C" fn hoistgarlic_letter(
    sites: usize,
    count: usize,
    images: &[u8],
    mapping: &[u16],
    positions: &[Cells],
    basis: &Basis,
    candidates: &[u16],
    candidate_letters: &[u8],
    texts: &[Text],
    symprec: f64,
    labels: &mut [u16],
    multiplicities: &mut [u16],
    letters: &mut [u8],
) -> usize
    ensures { AsNumber
        (LetterPromise
        (record {
          labelling =
              record {
                sites = sites;
                count = count;
                images = images.now;
                mapping = mapping.now;
              };
          positions = positions.now;
          basis = basis.now;
          multiplicities = candidates.now;
          letters = candidate_letters.now;
          texts = texts.now;
          symprec = symprec;
        })
        (record {
          labels = labels.old;
          multiplicities = multiplicities.old;
          letters = letters.old;
        })
        (record {
          labels = labels.new;
          multiplicities = multiplicities.new;
          letters = letters.new;
        }))
        result }
{
    let given = Lettering {
        labelling: Labelling {
            sites,
            count,
            images,
            mapping,
        },
        positions,
        basis: *basis,
        multiplicities: candidates,
        letters: candidate_letters,
        texts,
        symprec,
    };
    let mut orbits = Orbits {
        labels,
        multiplicities,
    };
    number_of(letter_sites(&given, &mut orbits, letters))
}

// what is told of the whole call: its number, and the counts of listed sites and of orbits in lent cells
fn tell_standardized(
    r: Result<AnswerCounts, Refusal>,
    sites: &mut usize,
    orbits: &mut usize,
) -> usize
    ensures { (result ≡ whole_number r) × (sites.new ≡ whole_sites r) × (orbits.new ≡ whole_orbits r) }
{
    match r {
        Ok(counts) => {
            *sites = counts.sites;
            *orbits = counts.orbits;
            0
        }
        Err(refusal) => {
            *sites = 0;
            *orbits = 0;
            usize::from(refusal)
        }
    }
}

// `standardize_bytes`
#[unsafe(no_mangle)]
pub extern "C" fn hoistgarlic_standardize(
    bytes: &[u8],
    out_positions: &mut [Cells],
    out_points: &mut [Point],
    mapping: &mut [u16],
    out_elements: &mut [i32],
    labels: &mut [u16],
    multiplicities: &mut [u16],
    letters: &mut [u8],
    primitive: &mut [Cells],
    primitive_basis: &mut Basis,
    listed_basis: &mut Basis,
    factors: &mut [i16; 3],
    sites: &mut usize,
    orbits: &mut usize,
) -> usize
    ensures { WholeTold
        (BytesPromise bytes.now
        (record {
          positions = out_positions.old;
          points = out_points.old;
          mapping = mapping.old;
          elements = out_elements.old;
          labels = labels.old;
          multiplicities = multiplicities.old;
          letters = letters.old;
          primitive = primitive.old;
          primitive_cell_basis = primitive_basis.old;
          listed_cell_basis = listed_basis.old;
          factors = factors.old;
        })
        (record {
          positions = out_positions.new;
          points = out_points.new;
          mapping = mapping.new;
          elements = out_elements.new;
          labels = labels.new;
          multiplicities = multiplicities.new;
          letters = letters.new;
          primitive = primitive.new;
          primitive_cell_basis = primitive_basis.new;
          listed_cell_basis = listed_basis.new;
          factors = factors.new;
        }))
        result sites.new orbits.new }
{
    let mut answer = Answer {
        positions: out_positions,
        points: out_points,
        mapping,
        elements: out_elements,
        labels,
        multiplicities,
        letters,
        primitive,
        primitive_cell_basis: primitive_basis,
        listed_cell_basis: listed_basis,
        factors,
    };
    let told = standardize_bytes(bytes, &mut answer);
    tell_standardized(told, sites, orbits)
}
