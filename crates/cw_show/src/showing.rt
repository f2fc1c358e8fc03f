//! The canonical text of a whole tree.
ghost use Rattle.std.specs.Prelude.{◌≡◌, map, IfOk};
ghost use Rattle.cw_show.specs.Adding.{Adds};
ghost use Rattle.cw_show.specs.Canonical.{ended};
ghost use Rattle.cw_show.specs.SegmentTokens.{comm_tokens};
ghost use Rattle.cw_show.specs.StatementTokens.{canonical_tokens, canonical_text};

use crate::leaf::put_name;
use crate::lists::put_ended;
use crate::statement::put_block;
use crate::token::put_word;
use crate::written::Text;
use cw_lex::Word;
use cw_tree::segment::{Raw, RawComm};
use cw_word::NoMemory;
use std::alloc::Global;

fn put_comms(out: &mut Text, comms: &[RawComm])
    ensures { Adds out.old out.new (ended (map comm_tokens comms.now)) }
{
    put_ended(out, comms);
}

fn put_segment(out: &mut Text, raw: &Raw)
    ensures { Adds out.old out.new (canonical_tokens raw.now) }
{
    put_comms(out, raw.comms.as_slice());
    put_word(out, Word::Segment);
    put_name(out, &raw.name);
    put_block(out, &raw.block);
    put_word(out, Word::Finish);
}

/// The canonical text of a tree.
pub fn show(alloc: Global, raw: &Raw) -> Result<Vec<u8>, NoMemory>
    ensures { IfOk result (λ text. text.items ≡ canonical_text raw.now) }
{
    let mut out = Text {
        bytes: Vec::new(alloc),
        lacking: false,
    };
    put_segment(&mut out, raw);
    let Text { bytes, lacking } = out;
    if lacking {
        return Err(NoMemory);
    }
    Ok(bytes)
}
