//! What procedures are specified as.
ghost use Rattle.std.specs.Prelude.{◌≡◌, ◌++◌, ◌∷◌, [], OnOk, IfOk};
ghost use Rattle.cw_facts.specs.Signatures.{plain, same_for, flat, flattened};

use crate::fact::Signature;
use cw_tree::leaf::RawName;
use cw_tree::segment::{RawIps, RawPs};
use cw_tree::statement::RawParam;
use cw_word::{List, NoMemory};
use std::alloc::Global;

// The parameters of a procedure parameter, which are no procedures, once more.
fn inner_again(alloc: Global, params: &[RawIps]) -> Result<List<RawIps>, NoMemory>
    ensures { IfOk result (λ again. again ≡ params.now) }
{
    let mut again = List::new(alloc);
    for param in params {
        again.push(*param)?;
    }
    Ok(again)
}

/// The parameters of a procedure parameter as parameters.
pub(crate) fn plain(alloc: Global, params: &[RawIps]) -> Result<List<RawPs>, NoMemory>
    ensures { IfOk result (λ all. all ≡ plain params.now) }
{
    let mut all = List::new(alloc);
    for param in params {
        all.push(RawPs::Plain(*param))?;
    }
    Ok(all)
}

fn again(alloc: Global, param: &RawPs) -> Result<RawPs, NoMemory>
    ensures { IfOk result (λ again. again ≡ param.now) }
{
    match param {
        RawPs::Plain(one) => Ok(RawPs::Plain(*one)),
        RawPs::Proc(answer, at, params) => {
            let params = inner_again(alloc, params.as_slice())?;
            Ok(RawPs::Proc(*answer, *at, params))
        }
    }
}

/// Listed parameters once more.
pub(crate) fn specified(alloc: Global, params: &[RawPs]) -> Result<List<RawPs>, NoMemory>
    ensures { IfOk result (λ all. all ≡ params.now) }
{
    let mut all = List::new(alloc);
    for param in params {
        all.push(again(alloc, param)?)?;
    }
    Ok(all)
}

// The same for each of some names.
fn same_for(param: &RawIps, names: &[RawName], out: &mut List<RawPs>) -> Result<(), NoMemory>
    ensures { OnOk result (out.new ≡ out.old ++ same_for param.now names.now) }
{
    for name in names {
        let _ = name;
        out.push(RawPs::Plain(*param))?;
    }
    Ok(())
}

fn flat(alloc: Global, param: &RawParam, out: &mut List<RawPs>) -> Result<(), NoMemory>
    ensures { OnOk result (out.new ≡ out.old ++ flat param.now) }
{
    match param {
        RawParam::Value(at, scale, names) => {
            same_for(&RawIps::Value(*at, *scale), names.as_slice(), out)
        }
        RawParam::Location(at, scale, names) => {
            same_for(&RawIps::Location(*at, *scale), names.as_slice(), out)
        }
        RawParam::Array(scale, names) => same_for(&RawIps::Array(*scale), names.as_slice(), out),
        RawParam::Table(tree) => out.push(RawPs::Plain(RawIps::Table(tree.at, tree.size))),
        RawParam::Label(at, names) => same_for(&RawIps::Label(*at), names.as_slice(), out),
        RawParam::Switch(at, names) => same_for(&RawIps::Switch(*at), names.as_slice(), out),
        RawParam::Proc(answer, at, _, params) => {
            let params = inner_again(alloc, params.as_slice())?;
            out.push(RawPs::Proc(*answer, *at, params))
        }
    }
}

/// Declared parameters one by one.
pub(crate) fn flattened(alloc: Global, params: &[RawParam]) -> Result<List<RawPs>, NoMemory>
    ensures { IfOk result (λ all. all ≡ flattened params.now) }
{
    let mut all = List::new(alloc);
    for param in params {
        flat(alloc, param, &mut all)?;
    }
    Ok(all)
}

/// A specification once more.
pub fn signature_again(alloc: Global, signature: &Signature) -> Result<Signature, NoMemory>
    ensures { IfOk result (λ again. again ≡ signature.now) }
{
    let params = specified(alloc, signature.params.as_slice())?;
    Ok(Signature {
        answer: signature.answer,
        params,
    })
}
