//! Why a file is not served, in words.
ghost use Rattle.std.specs.Prelude.{◌≡◌, ◌++◌, IfOk, OnOk, map, take};
ghost use Rattle.agent_words.specs.Noting.{AreWhysNotServed, IsAlone, SaysIfFaulty, more_faults, said_faults};
ghost use Rattle.agent_words.specs.Reasons.{file_words, more_words};

use crate::all_faults::faults_as_written;
use crate::demands::Demands;
use crate::fault::StartFault;
use crate::reasons::file_words;
use base_moment::Text;
use base_words::push_number;
use plan_forest::Forest;
use std::alloc::{AllocError, Global};
use vault_inventory::{InvFault, read_served};
use vault_lint::words_of_fault;

/// The faults of a file that are said at most; what is left is counted in one line more.
const MOST_FAULTS: usize = 100;

/// Why a file with these bytes is not served, in words: a line for each fault of what it writes, of which a hundred are said, and then
/// how many more there are; `None` where it may be served. What the files hold that it names is waited for. The only error is out of
/// memory.
#[tactic(auto, using(crate::proofs::Faulty::well_written, crate::proofs::Faulty::says_each))]
pub fn why_not_served(
    alloc: Global,
    bytes: &[u8],
    demands: Demands,
) -> Result<Option<Vec<Text>>, AllocError>
    ensures { IfOk result (SaysIfFaulty demands bytes.now) }
{
    let faults = faults_as_written(alloc, bytes, demands)?;
    if faults.is_empty() {
        return Ok(None);
    }
    Ok(Some(words_of(alloc, demands, bytes, &faults)?))
}

// The words of these faults of a file with these bytes.
fn words_of(
    alloc: Global,
    demands: Demands,
    bytes: &[u8],
    faults: &[StartFault],
) -> Result<Vec<Text>, AllocError>
    ensures { IfOk result (λ whys. AreWhysNotServed demands bytes.now faults.now whys.items) }
{
    match read_served(alloc, bytes) {
        Ok(served) => said_faults(alloc, demands, served.inventory().forest(), faults),
        Err(InvFault::OutOfMemory) => Err(AllocError),
        Err(fault) => alone(alloc, bytes, fault),
    }
}

// The one line of a text that is no inventory.
fn alone(alloc: Global, bytes: &[u8], fault: InvFault) -> Result<Vec<Text>, AllocError>
    ensures { IfOk result (λ whys. IsAlone bytes.now fault whys.items) }
{
    let mut whys = Vec::new(alloc);
    whys.push(words_of_fault(alloc, bytes, fault)?)?;
    Ok(whys)
}

// The words of the first hundred, and how many more there are.
#[tactic(auto, unfolding(crate::specs::Noting::said_faults))]
fn said_faults(
    alloc: Global,
    demands: Demands,
    forest: &Forest,
    faults: &[StartFault],
) -> Result<Vec<Text>, AllocError>
    ensures { IfOk result (λ whys. whys.items ≡ said_faults demands forest.now faults.now) }
{
    let mut whys = each_said(alloc, demands, forest, first_faults(faults))?;
    push_more(alloc, faults.len().saturating_sub(MOST_FAULTS), &mut whys)?;
    Ok(whys)
}

// The words of each.
fn each_said(
    alloc: Global,
    demands: Demands,
    forest: &Forest,
    faults: &[StartFault],
) -> Result<Vec<Text>, AllocError>
    ensures { IfOk result (λ whys. whys.items ≡ map (file_words demands forest.now) faults.now) }
{
    let mut whys = Vec::new(alloc);
    for place in 0..faults.len() {
        whys.push(words_of_one(alloc, demands, forest, &faults[place])?)?;
    }
    Ok(whys)
}

fn words_of_one(
    alloc: Global,
    demands: Demands,
    forest: &Forest,
    fault: &StartFault,
) -> Result<Text, AllocError>
    ensures { IfOk result (λ text. text ≡ file_words demands forest.now fault.now) }
{
    file_words(alloc, demands, forest, *fault)
}

// The faults that are said.
fn first_faults(faults: &[StartFault]) -> &[StartFault]
    ensures { result.now ≡ take 100 faults.now }
{
    if faults.len() < MOST_FAULTS {
        faults
    } else {
        &faults[..MOST_FAULTS]
    }
}

// Appends how many more faults there are, where some are not said.
fn push_more(alloc: Global, left: usize, whys: &mut Vec<Text>) -> Result<(), AllocError>
    ensures { OnOk result (whys.new.items ≡ whys.old.items ++ more_faults left) }
{
    if left > 0 {
        whys.push(more_words(alloc, left)?)?;
    }
    Ok(())
}

// How many more faults there are, in words.
fn more_words(alloc: Global, left: usize) -> Result<Text, AllocError>
    ensures { IfOk result (λ text. text ≡ more_words left) }
{
    let mut text = Vec::from_slice(alloc, b"and ")?;
    push_number(alloc, left as u64, &mut text)?;
    text.extend_from_slice(b" more")?;
    Ok(Text::from_vec(text))
}
