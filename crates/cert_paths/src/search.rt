//! The search for a walk from a certificate to an anchor, by levels down from the anchors.
//!
//! How a walk may go on depends only on its last certificate, its length and the number that the rule on path lengths counts. So a
//! table of these, for each length in turn, is enough.

ghost use Rattle.std.specs.Prelude.{◌≡◌, ℕ, ◌+◌, ◌*◌, ◌/◌, ◌%◌, ◌^◌, ◌<◌, ◌≤◌, ◌↔◌, length, IsTrue, IfOk};
ghost use Rattle.cert_paths.specs.Numbered.{Issuing, next_count, IsRooted, LeadsWithin, HasNumberedWalk, IsTable};

use std::alloc::{AllocError, Global};

/// Which certificates are issued by which, where so many are counted below the issuer. Anchors are numbered behind the certificates.
pub(crate) trait Graph {
    ghost issuing: { Self → Issuing };

    fn size(&self) -> usize
        ensures { result ≡ (issuing self.now).size };

    fn reach(&self) -> usize
        ensures { result ≡ (issuing self.now).reach };

    fn is_linked(&self, counted: usize, certificate: usize, issuer: usize) -> bool
        requires { (certificate < (issuing self.now).size) × (issuer < (issuing self.now).reach) }
        ensures { result ≡ (issuing self.now).linked counted certificate issuer };

    fn counts(&self, certificate: usize) -> bool
        requires { certificate < (issuing self.now).size }
        ensures { result ≡ (issuing self.now).counts certificate };
}

// Whether an anchor is the issuer.
fn is_rooted<G: Graph>(graph: &G, counted: usize, certificate: usize) -> bool
    requires { certificate < (G.issuing graph.now).size }
    ensures { IsTrue result ↔ IsRooted (G.issuing graph.now) counted certificate }
{
    for anchor in graph.size()..graph.reach() {
        if graph.is_linked(counted, certificate, anchor) {
            return true;
        }
    }
    false
}

// The count once the walk goes on to this certificate.
fn count_after<G: Graph>(graph: &G, counted: usize, certificate: usize) -> usize
    requires room { counted < 8 }
    requires certificate { certificate < (G.issuing graph.now).size }
    ensures { result ≡ next_count (G.issuing graph.now) counted certificate }
{
    if graph.counts(certificate) {
        counted + 1
    } else {
        counted
    }
}

// Whether an issuer of the certificate leads on within `steps` steps.
fn leads_above<G: Graph>(
    graph: &G,
    table: &[bool],
    steps: usize,
    counted: usize,
    certificate: usize,
) -> bool
    requires table { IsTable (G.issuing graph.now) steps table.now }
    requires few { ((G.issuing graph.now).size < 2 ^ 32) × ((G.issuing graph.now).size ≤ (G.issuing graph.now).reach) }
    requires room { (counted < 8) × (steps < 8) × (counted + steps < 7) }
    requires certificate { certificate < (G.issuing graph.now).size }
    ensures { IsTrue result ↔ ((i : ℕ) × (i < (G.issuing graph.now).size) × IsTrue ((G.issuing graph.now).linked counted certificate i) × LeadsWithin (G.issuing graph.now) steps (next_count (G.issuing graph.now) counted i) i) }
{
    for issuer in 0..graph.size() {
        if graph.is_linked(counted, certificate, issuer) {
            let next = count_after(graph, counted, issuer);
            if table[issuer * 8 + next] {
                return true;
            }
        }
    }
    false
}

// Whether the certificate leads on within `steps + 1` steps.
fn leads_within<G: Graph>(
    graph: &G,
    table: &[bool],
    steps: usize,
    counted: usize,
    certificate: usize,
) -> bool
    requires table { IsTable (G.issuing graph.now) steps table.now }
    requires few { ((G.issuing graph.now).size < 2 ^ 32) × ((G.issuing graph.now).size ≤ (G.issuing graph.now).reach) }
    requires room { (counted < 8) × (steps < 8) × (counted + steps < 7) }
    requires certificate { certificate < (G.issuing graph.now).size }
    ensures { IsTrue result ↔ LeadsWithin (G.issuing graph.now) (steps + 1) counted certificate }
{
    is_rooted(graph, counted, certificate) || leads_above(graph, table, steps, counted, certificate)
}

// An entry of the table for walks that end at an anchor at once.
fn first_entry<G: Graph>(graph: &G, place: usize) -> bool
    requires place { place < (G.issuing graph.now).size * 8 }
    ensures { IsTrue result ↔ LeadsWithin (G.issuing graph.now) 0 (place % 8) (place / 8) }
{
    is_rooted(graph, place % 8, place / 8)
}

// The table for walks that end at an anchor at once.
fn first_table<G: Graph>(alloc: Global, graph: &G) -> Result<Vec<bool>, AllocError>
    requires few { (G.issuing graph.now).size < 2 ^ 32 }
    ensures { IfOk result (λ table. IsTable (G.issuing graph.now) 0 table.items) }
{
    let mut table = Vec::new(alloc);
    for place in 0..graph.size() * 8 {
        table.push(first_entry(graph, place))?;
    }
    Ok(table)
}

// An entry of the table for walks of one step more.
fn next_entry<G: Graph>(graph: &G, below: &[bool], steps: usize, place: usize) -> bool
    requires table { IsTable (G.issuing graph.now) steps below.now }
    requires few { ((G.issuing graph.now).size < 2 ^ 32) × ((G.issuing graph.now).size ≤ (G.issuing graph.now).reach) }
    requires room { steps < 7 }
    requires place { place < (G.issuing graph.now).size * 8 }
    ensures { place % 8 + steps < 7 → (IsTrue result ↔ LeadsWithin (G.issuing graph.now) (steps + 1) (place % 8) (place / 8)) }
{
    if place % 8 + steps < 7 {
        return leads_within(graph, below, steps, place % 8, place / 8);
    }
    false
}

// The table for walks of one step more.
fn next_table<G: Graph>(
    alloc: Global,
    graph: &G,
    below: &[bool],
    steps: usize,
) -> Result<Vec<bool>, AllocError>
    requires table { IsTable (G.issuing graph.now) steps below.now }
    requires few { ((G.issuing graph.now).size < 2 ^ 32) × ((G.issuing graph.now).size ≤ (G.issuing graph.now).reach) }
    requires room { steps < 7 }
    ensures { IfOk result (λ table. IsTable (G.issuing graph.now) (steps + 1) table.items) }
{
    let mut table = Vec::new(alloc);
    for place in 0..graph.size() * 8 {
        table.push(next_entry(graph, below, steps, place))?;
    }
    Ok(table)
}

/// Whether a walk of 1 to 8 certificates leads from the certificate to an anchor.
pub(crate) fn has_walk<G: Graph>(alloc: Global, graph: &G, leaf: usize) -> Result<bool, AllocError>
    requires few { ((G.issuing graph.now).size < 2 ^ 32) × ((G.issuing graph.now).size ≤ (G.issuing graph.now).reach) }
    requires leaf { leaf < (G.issuing graph.now).size }
    ensures { IfOk result (λ answer. IsTrue answer ↔ HasNumberedWalk (G.issuing graph.now) leaf) }
{
    let mut table = first_table(alloc, graph)?;
    for steps in 0..7 {
        table = next_table(alloc, graph, table.as_slice(), steps)?;
    }
    Ok(table[leaf * 8])
}
