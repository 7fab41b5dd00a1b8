//! Receipts, and the hands that show that they are true.

ghost use Rattle.std.specs.Prelude.{◌≡◌, ◌++◌, ◌∷◌, [], OnOk, OnErr, IfOk};
ghost use Rattle.session_core.specs.Truth.{AreTrue};
ghost use Rattle.serve_core.specs.Backed.{AreBacked};

use device_core::hand::Hand;
use office_core::slip::Slip;
use std::alloc::{AllocError, Global};
use std::marker::Model;

/// The receipts of a session, and the hand on which its calls were performed: each receipt is true of each assignment
/// that agrees with the hand. A contract sees it as what the receipts tell.
#[derive(Drop)]
pub struct Backed<H: Hand + Drop> {
    receipts: Vec<Slip>,
    hand: H,
}

impl<H: Hand + Drop> Model for Backed<H> {
    ghost use Rattle.std.specs.Prelude.{List};
    ghost use Rattle.std.specs.Coded.{codes};
    ghost use Rattle.office_core.specs.contracts.slip.Slip as s;
    ghost use Rattle.office_core.specs.Slips.{Told};
    ghost use Rattle.session_core.specs.Truth.{AreTrue};

    ghost Value = { List Told };

    ghost coded = { Prim.hlevel (codes, s.the_row.coded) };

    ghost view = { λ b. b.receipts.items };

    ghost invariant = { λ b. AreTrue H.agrees b.hand b.receipts.items };
}

impl<H: Hand + Drop> Backed<H> {
    /// Receipts that are true by this hand.
    pub fn new(receipts: Vec<Slip>, hand: H) -> Backed<H>
        requires { AreTrue H.agrees hand receipts.items }
        ensures { result ≡ receipts.items }
    {
        Backed { receipts, hand }
    }

    // The receipts and the hand.
    fn into_parts(self) -> (Vec<Slip>, H)
        ensures items { result.0.items ≡ self }
        ensures backed { AreTrue H.agrees result.1 result.0.items }
    {
        let Backed { receipts, hand } = self;
        (receipts, hand)
    }
}

/// The receipts of some sessions, one behind the other, and the hands of these: each assignment that agrees with all of
/// the hands makes each receipt true. A contract sees it as what the receipts tell.
#[derive(Drop)]
pub struct AllBacked<H: Hand + Drop> {
    receipts: Vec<Slip>,
    hands: Vec<H>,
}

impl<H: Hand + Drop> Model for AllBacked<H> {
    ghost use Rattle.std.specs.Prelude.{List};
    ghost use Rattle.std.specs.Coded.{codes};
    ghost use Rattle.office_core.specs.contracts.slip.Slip as s;
    ghost use Rattle.office_core.specs.Slips.{Told};
    ghost use Rattle.serve_core.specs.Backed.{AreBackedBy};

    ghost Value = { List Told };

    ghost coded = { Prim.hlevel (codes, s.the_row.coded) };

    ghost view = { λ b. b.receipts.items };

    ghost invariant = { λ b. AreBackedBy H.agrees b.hands.items b.receipts.items };
}

// Adds receipts behind others. Where memory is refused nothing is added.
fn append(receipts: &mut Vec<Slip>, more: Vec<Slip>) -> Result<(), AllocError>
    ensures ok { OnOk result (receipts.new.items ≡ receipts.old.items ++ more.items) }
    ensures err { OnErr result (receipts.new.items ≡ receipts.old.items) }
{
    let mut more = more;
    if receipts.is_empty() {
        *receipts = more;
        return Ok(());
    }
    receipts.reserve_exact(more.len())?;
    receipts.append(&mut more)
}

impl<H: Hand + Drop> AllBacked<H> {
    /// No receipts yet, and room for the hands of so many sessions. The error is that memory was refused.
    pub(crate) fn with_room(alloc: Global, sessions: usize) -> Result<AllBacked<H>, AllocError>
        ensures { IfOk result (λ all. all ≡ []) }
    {
        let hands = Vec::with_capacity(alloc, sessions)?;
        Ok(AllBacked {
            receipts: Vec::new(alloc),
            hands,
        })
    }

    /// Adds those of one more session. Where memory is refused none of them is added.
    pub(crate) fn add(&mut self, more: Backed<H>) -> Result<(), AllocError>
        ensures ok { OnOk result (self.new ≡ self.old ++ more) }
        ensures err { OnErr result (self.new ≡ self.old) }
    {
        let (receipts, hand) = more.into_parts();
        self.hands.push(hand)?;
        append(&mut self.receipts, receipts)
    }

    /// The receipts. There are hands that show that they are true.
    pub(crate) fn into_receipts(self) -> Vec<Slip>
        ensures items { result.items ≡ self }
        ensures backed { AreBacked H.agrees result.items }
    {
        self.receipts
    }
}
