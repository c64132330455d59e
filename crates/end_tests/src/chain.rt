//! Two stages over bytes, driven alone and as a chain.

ghost use Rattle.std.specs.Prelude.{◌≡◌, ℕ, ◌+◌, ◌*◌, ◌^◌, ◌<◌, ◌≤◌, ◌++◌, ◌∷◌, [], length, ltb, map, false, if◌then◌else◌, IfOk};
ghost use Rattle.std.specs.List.{filter};
ghost use Rattle.gabc_places.specs.BoundedList.{Fits};
ghost use Rattle.gabc_places.specs.StageLaw.{silence};

use gabc_places::{Chain, Room, Stage, drive};
use std::alloc::{AllocError, Global};

/// A stage that emits each byte twice, and 255 at the end.
#[derive(Drop)]
struct Twice {
    over: bool,
}

impl Stage for Twice {
    type Input = u8;

    type Output = u8;

    ghost rest = { λ s xs. if s.over then silence xs
        else (map (λ x. x ∷ x ∷ []) xs ++ (255 ∷ []) ∷ []) };

    ghost most_of = { λ _. 2 };

    ghost is_end = { λ _. false };

    fn most(&self) -> usize {
        2
    }

    fn push(&mut self, input: u8, out: &mut Room<u8>) {
        if !self.over {
            out.append(&[input, input]);
        }
    }

    #[tactic(auto, using(gabc_places::proofs::PushesAreOne::joined_silence))]
    fn finish(&mut self, out: &mut Room<u8>) {
        if !self.over {
            out.push(255);
        }
        self.over = true;
    }
}

/// A stage that emits the bytes above a number.
#[derive(Drop)]
struct Above {
    number: u8,
    over: bool,
}

impl Stage for Above {
    type Input = u8;

    type Output = u8;

    ghost rest = { λ s xs. if s.over then silence xs else (map (λ x. filter (λ y. ltb s.number y)
        (x ∷ [])) xs ++ [] ∷ []) };

    ghost most_of = { λ _. 1 };

    ghost is_end = { λ _. false };

    fn most(&self) -> usize {
        1
    }

    fn push(&mut self, input: u8, out: &mut Room<u8>) {
        if !self.over && self.number < input {
            out.push(input);
        }
    }

    #[tactic(auto, using(gabc_places::proofs::PushesAreOne::joined_silence))]
    fn finish(&mut self, _out: &mut Room<u8>) {
        self.over = true;
    }
}

fn make_twice() -> Twice
    ensures { result ≡ record { over = false } }
{
    Twice { over: false }
}

fn make_above(number: u8) -> Above
    ensures { result ≡ record { number = number; over = false } }
{
    Above {
        number,
        over: false,
    }
}

/// Returns the bytes that are driven.
fn inputs(alloc: Global) -> Result<Vec<u8>, AllocError>
    ensures { IfOk result (λ xs. length xs.items ≡ 3) }
{
    let mut inputs = Vec::new(alloc);
    inputs.extend_from_slice(&[7, 8, 9])?;
    Ok(inputs)
}

/// Returns whether one stage emits what it has to.
fn one_is_driven(alloc: Global) -> Result<bool, AllocError> {
    let mut out = Room::with_limit(alloc, 8)?;
    drive(&mut make_twice(), inputs(alloc)?, &mut out);
    Ok(out.slice() == [7, 7, 8, 8, 9, 9, 255].as_slice())
}

/// Drives the chain of `first` and `second` over `inputs`.
fn drive_both(first: Twice, second: Above, between: Room<u8>, inputs: Vec<u8>, out: &mut Room<u8>)
    requires between { 2 ≤ between.limit }
    requires out { Fits out.old (3 * (length inputs.items + 1)) }
{
    drive(&mut Chain::new(first, second, between), inputs, out);
}

/// Returns whether a chain emits what it has to.
fn a_chain_is_driven(alloc: Global) -> Result<bool, AllocError> {
    let mut out = Room::with_limit(alloc, 12)?;
    let between = Room::with_limit(alloc, 2)?;
    drive_both(
        make_twice(),
        make_above(7),
        between,
        inputs(alloc)?,
        &mut out,
    );
    Ok(out.slice() == [8, 8, 9, 9, 255].as_slice())
}

/// Returns whether a chain lends both of its stages.
fn both_are_lent(alloc: Global) -> Result<bool, AllocError> {
    let between = Room::with_limit(alloc, 2)?;
    let chain = Chain::new(make_twice(), make_above(7), between);
    Ok((chain.most(), chain.first().most(), chain.second().number) == (3, 2, 7))
}

#[test]
fn stages_from_outside_are_driven(rt: HostRuntime) -> Result<(), AllocError> {
    assert!(rt; one_is_driven(rt.alloc())?);
    assert!(rt; a_chain_is_driven(rt.alloc())?);
    assert!(rt; both_are_lent(rt.alloc())?);
    Ok(())
}
