// moyo's base/permutation.rs over lent lists: the identity, an image, the inverse, the product.
// Sites are numbered below 256, so a permutation is a list of bytes: entry i is the image of site i.
#![tactic(auto)]

ghost use Rattle.std.specs.Prelude.{ℕ, ◌≤◌, ◌≡◌, true, List, ◌++◌, map, length, drop};
ghost use Rattle.definitions.specs.Lists.{all, up_to};
ghost use Rattle.definitions.specs.Refusal.{Checked};
ghost use Rattle.definitions.specs.Calls.{identity_conditions, inverse_conditions, product_conditions};
ghost use Rattle.definitions.specs.Calls.{IdentityPromise, ImagePromise, InversePromise, ProductPromise};
ghost use Rattle.definitions.specs.Permutation.{is_permutation, permutation_at, inverse_image, after};
ghost use Rattle.definitions.specs.Lent.{bad_permutation_counts};

use checks::is_some_count;
use definitions::limits::MOST_SITES;
use definitions::{PrimSite, Refusal, Verdict};
use lent::clear;

// Whether p lists each of its own places once, entry by entry: a table says which images were met.
fn each_once(p: &[u8]) -> bool
    ensures { result ≡ is_permutation (length p.now) p.now }
{
    let mut met = [false; 256];
    for image in p {
        let x = usize::from(*image);
        if p.len() <= x {
            return false;
        }
        if met[x] {
            return false;
        }
        met[x] = true;
    }
    true
}

// Whether every cell is marked. `Iterator::all` would stop at the first that is not: no branch here, so that many cells
// are read at a time.
fn all_marked(marks: &[bool]) -> bool
    ensures { result ≡ all (λ m. m) marks.now }
{
    let mut whole = true;
    for mark in marks {
        whole &= *mark;
    }
    whole
}

// Whether p lists each of its own places once, with no test of an entry: n entries that meet all of n places meet each
// of them once.
fn all_met(p: &[u8]) -> bool
    requires { length p.now ≤ 256 }
    ensures { result ≡ is_permutation (length p.now) p.now }
{
    let mut marks = [false; 256];
    for image in p {
        marks[usize::from(*image)] = true;
    }
    all_marked(&marks[..p.len()])
}

// Whether p lists each of its own places once. Reading the marks again pays in longer lists; the table has 256 of them.
pub fn is_permutation(p: &[u8]) -> bool
    ensures { result ≡ is_permutation (length p.now) p.now }
{
    if p.len() < 16 {
        return each_once(p);
    }
    if 256 < p.len() {
        return each_once(p);
    }
    all_met(p)
}

// Whether k permutations of n sites stand one behind the other at the front of the list: one that is cut short is none.
pub fn all_permutations(images: &[u8], n: usize, k: usize) -> bool
    ensures { result ≡ all (λ o. is_permutation n (permutation_at n images.now o)) (up_to k) }
{
    if n == 0 {
        return true;
    }
    if images.len() / n < k {
        return false;
    }
    // `images.chunks_exact(n).take(k).all(..)`: tried, and the proof by the runs of three iterators did not close
    for o in 0..k {
        let at = o * n;
        if !is_permutation(&images[at..at + n]) {
            return false;
        }
    }
    true
}

// Refusal 2 of the calls that are given so many permutations of so many sites in one list: the product is small by the
// time that it is made.
pub fn bad_permutation_counts(sites: usize, count: usize, images: &[u8]) -> bool
    ensures { result ≡ bad_permutation_counts sites count images.now }
{
    MOST_SITES < sites || !is_some_count(count) || images.len() != count * sites
}

// ---- the verdict of each call

fn identity_verdict(n: usize, room: usize) -> Verdict
    ensures { Checked (identity_conditions n room) result }
{
    if MOST_SITES < n {
        return Err(Refusal::Counts);
    }
    if room < n {
        return Err(Refusal::Buffer);
    }
    Ok(())
}

fn inverse_verdict(p: &[u8], room: usize) -> Verdict
    ensures { Checked (inverse_conditions p.now room) result }
{
    if MOST_SITES < p.len() {
        return Err(Refusal::Counts);
    }
    if !is_permutation(p) {
        return Err(Refusal::SiteImage);
    }
    if room < p.len() {
        return Err(Refusal::Buffer);
    }
    Ok(())
}

fn product_verdict(p: &[u8], q: &[u8], room: usize) -> Verdict
    ensures { Checked (product_conditions p.now q.now room) result }
{
    if MOST_SITES < p.len() {
        return Err(Refusal::Counts);
    }
    if q.len() != p.len() {
        return Err(Refusal::Counts);
    }
    if !is_permutation(p) {
        return Err(Refusal::SiteImage);
    }
    if !is_permutation(q) {
        return Err(Refusal::SiteImage);
    }
    if room < p.len() {
        return Err(Refusal::Buffer);
    }
    Ok(())
}

// ---- the answers, written to the front of a lent list

fn put_identity(n: usize, out: &mut [u8])
    requires { (n ≤ 256) × (n ≤ length out.old) }
    ensures { out.new ≡ up_to n ++ drop n out.old }
{
    let front = &mut out[..n];
    for (i, cell) in front.iter_mut().enumerate() {
        *cell = i as u8;
    }
}

fn put_inverse(p: &[u8], out: &mut [u8])
    requires { (length p.now ≤ 256) × (is_permutation (length p.now) p.now ≡ true) ×
        (length p.now ≤ length out.old) }
    ensures { out.new ≡ map (inverse_image p.now) (up_to (length p.now)) ++
        drop (length p.now) out.old }
{
    for (i, image) in p.iter().enumerate() {
        let x = usize::from(*image);
        out[x] = i as u8;
    }
}

fn put_product(p: &[u8], q: &[u8], out: &mut [u8])
    requires { (length q.now ≡ length p.now) × (is_permutation (length p.now) p.now ≡ true) ×
        (is_permutation (length q.now) q.now ≡ true) × (length q.now ≤ length out.old) }
    ensures { out.new ≡
        after p.now q.now ++ drop (length q.now) out.old }
{
    // over q and not over the cells of `out`: an index either way
    for (i, image) in q.iter().enumerate() {
        out[i] = p[usize::from(*image)];
    }
}

// ---- the calls

// The identity of n sites.
pub fn identity(n: usize, out: &mut [u8]) -> Verdict
    ensures { IdentityPromise n out.old out.new result }
{
    let v = identity_verdict(n, out.len());
    match v {
        Ok(()) => {
            put_identity(n, out);
            clear(out, n);
        }
        Err(_) => {
            clear(out, 0);
        }
    }
    v
}

// The image of the site i.
pub fn apply(p: &[u8], i: PrimSite) -> Result<PrimSite, Refusal>
    ensures { ImagePromise p.now i.0 result }
{
    if MOST_SITES < p.len() {
        return Err(Refusal::Counts);
    }
    if !is_permutation(p) {
        return Err(Refusal::SiteImage);
    }
    let at = i.0;
    if p.len() <= at {
        return Err(Refusal::SiteImage);
    }
    Ok(PrimSite(usize::from(p[at])))
}

// The inverse of p.
pub fn inverse(p: &[u8], out: &mut [u8]) -> Verdict
    ensures { InversePromise p.now out.old out.new result }
{
    let v = inverse_verdict(p, out.len());
    match v {
        Ok(()) => {
            put_inverse(p, out);
            clear(out, p.len());
        }
        Err(_) => {
            clear(out, 0);
        }
    }
    v
}

// p after q.
pub fn product(p: &[u8], q: &[u8], out: &mut [u8]) -> Verdict
    ensures { ProductPromise p.now q.now out.old out.new result }
{
    let v = product_verdict(p, q, out.len());
    match v {
        Ok(()) => {
            put_product(p, q, out);
            clear(out, q.len());
        }
        Err(_) => {
            clear(out, 0);
        }
    }
    v
}
