//! How many elements at the front of a content begin with elements that all differ.
//!
//! The first elements of a block are sorted, and those of all elements behind it are looked up among them. So n elements take n / 4,096
//! walks, and no memory but that of a block.

ghost use Rattle.std.specs.Prelude.{map, IfSome, IsFalse};
ghost use Rattle.std.specs.Cmp.Lexicographic.{slice_cmp};
ghost use Rattle.std.specs.List.Sorted.{IsPermutation, IsSorted};
ghost use Rattle.std.specs.Ordering.{nat_cmp};
ghost use Rattle.der_values.specs.Distinct.{AreApart, Has, IsBlock, IsOutside, firsts, octets};
ghost use Rattle.der_values.specs.View.{elements_left};

use crate::elements::{Elements, elements_of};
use crate::rules::piece;
use arrayvec::ArrayVec;

const BLOCK: usize = 4096;

// The first elements of the next elements, as many as a block has; `None` where there are fewer, or two of them are the same.
fn next_block<'a>(rest: &mut Elements<'a>) -> Option<ArrayVec<&'a [u8], 4096>>
    ensures { IfSome result (λ b. IsBlock 4096 (elements_left rest.old) (elements_left rest.new) (map octets b.items)) }
{
    let mut block = ArrayVec::new();
    for _ in 0..BLOCK {
        let element = rest.next()?;
        let first = piece(0, element.content);
        if block.as_slice().contains(&first) {
            return None;
        }
        block.push(first);
    }
    Some(block)
}

fn sort_block(block: &mut ArrayVec<&[u8], 4096>)
    ensures permutation { IsPermutation block.old.items block.new.items }
    ensures sorted { IsSorted (λ x y. slice_cmp nat_cmp (octets x) (octets y)) block.new.items }
{
    block.as_mut_slice().sort_unstable();
}

fn is_in(block: &[&[u8]], first: &[u8]) -> bool
    requires { IsSorted (λ x y. slice_cmp nat_cmp (octets x) (octets y)) block.now }
    ensures { IsFalse result → Has (map octets block.now) first.now → ⊥ }
{
    block.binary_search(&first).is_ok()
}

// How many of at most so many elements come before one whose first element is in the block.
fn count_outside(block: &[&[u8]], rest: Elements<'_>, most: usize) -> usize
    requires { IsSorted (λ x y. slice_cmp nat_cmp (octets x) (octets y)) block.now }
    ensures { IsOutside result (map octets block.now) (elements_left rest.entry) }
{
    let mut rest = rest;
    for count in 0..most {
        let Some(element) = rest.next() else {
            return most;
        };
        if is_in(block, piece(0, element.content)) {
            return count;
        }
    }
    most
}

/// So many of the first elements of a content begin with elements that all differ. There may be more.
pub(crate) fn distinct(content: &[u8]) -> usize
    ensures { AreApart result (firsts content.now) }
{
    let mut rest = elements_of(content);
    let mut passed = 0;
    let mut until = content.len();
    for _ in 0..content.len() / BLOCK {
        let Some(mut block) = next_block(&mut rest) else {
            return passed.min(until);
        };
        sort_block(&mut block);
        passed += BLOCK;
        let outside = count_outside(block.as_slice(), rest.again(), until);
        until = until.min(passed.saturating_add(outside));
        if until <= passed {
            return until;
        }
    }
    passed.min(until)
}
