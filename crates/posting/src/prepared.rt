use enq_base::Items;
use keeper_api::Change;
use ledger_steps::Step;
use module_effects::Spot;
use std::marker::Model;

/// A change that is ready to be written.
#[derive(Drop)]
pub struct Prepared {
    pub(crate) batch: Items<Change>,
    /// The business rows that it leaves.
    pub(crate) rows: Items<Spot>,
    pub(crate) step: Step,
}

impl Model for Prepared {
    ghost use Rattle.ledger_steps.specs.Steps.{Plan};

    ghost Value = { Plan };

    ghost view = { λ p. record { batch = p.batch; rows = p.rows; step = p.step } };
}
