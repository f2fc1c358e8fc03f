//! The blocks of orders, which are found once.
ghost use Rattle.std.specs.Prelude.{◌≡◌, ◌<◌, length, drop, IfOk};
ghost use Rattle.cw_tmpl.specs.Blocks.{NamesParts, block_at};
ghost use Rattle.cw_assemble.specs.Noted.{blocks_from};

use cw_order::Order;
use cw_tmpl::{Block, block_in, orders_left};
use cw_word::{List, NoMemory};
use std::alloc::Global;

/// How each of the orders stands in its block.
pub(crate) fn blocks_of(alloc: Global, orders: &[Order]) -> Result<List<Block>, NoMemory>
    ensures { IfOk result (λ blocks. blocks ≡ blocks_from 0 orders.now) }
{
    let mut blocks = List::new(alloc);
    let mut left = 0;
    for k in 0..orders.len() {
        let order = &orders[k];
        // Only the proof speaks of the order, and sees what the body reads.
        let _ = order;
        let block = block_in(left, orders, k);
        blocks.push(block)?;
        left = orders_left(block);
    }
    Ok(blocks)
}

/// How the order at a place stands, where so many are left of the block before.
pub(crate) fn block_noted(blocks: &[Block], orders: &[Order], left: u8, k: usize) -> Block
    requires inside { k < length orders.now }
    requires noted { drop k blocks.now ≡ blocks_from left (drop k orders.now) }
    ensures value { result ≡ block_at left (drop k orders.now) }
    ensures parts { NamesParts result }
{
    // Only the contract speaks of these two, and the prover sees what the body reads.
    let _ = orders;
    let _ = left;
    blocks[k]
}
