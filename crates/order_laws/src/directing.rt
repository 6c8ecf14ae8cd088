//! Which way the data of an operation code goes.
ghost use Rattle.std.specs.Prelude.{◌≡◌, ◌==◌, ℕ, List, Err};
ghost use Rattle.tcmu_types.specs.Lists.{Every};
ghost use Rattle.tcmu_types.specs.Rules.{is_data_out};
ghost use Rattle.scsi_model.specs.declared.op.CdbFault.TheVariants.{Opcode};
ghost use Rattle.scsi_model.specs.Decoding.{decoded, rows};
ghost use Rattle.order_laws.specs.Directions.{sends};

/// An operation code that is served sends data exactly where its operation does: WRITE, WRITE SAME, UNMAP and COMPARE AND WRITE, in each of
/// their lengths. Of the codes that are not served PERSISTENT RESERVE OUT alone does.
pub fn directions_law()
    ensures served { (cdb : List ℕ) → Every (λ r. is_data_out r.code ≡ sends r.op) (rows cdb) }
    ensures unserved { (cdb : List ℕ) (code : ℕ) → decoded cdb ≡ Err (Opcode code) → is_data_out code ≡ (code == 0x5f) }
{}
