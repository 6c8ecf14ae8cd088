//! Two commands from their adding to their taking out.
ghost use Rattle.std.specs.Prelude.{◌≡◌, ◌<◌, [], ◌∷◌, ◌++◌, length, false, IfOk};
ghost use Rattle.target_table.specs.Rows.{AllPrecede};
ghost use Rattle.region_model.specs.Sides.{PendingRow};

use std::alloc::Global;
use std::test::Fail;
use target_table::{Pending, Table};
use tcmu_types::{BlockList, Bytes, Name};

/// A command without data.
fn pending(alloc: Global, serial: u64, deadline: u64) -> Result<Pending, Fail>
    ensures serial { IfOk result (λ p. p.serial ≡ serial) }
    ensures deadline { IfOk result (λ p. p.deadline ≡ Some deadline) }
{
    let init = Name::new("a").ok_or("a name")?;
    Ok(Pending {
        serial,
        init,
        tag: 1,
        in_len: 0,
        blocks: BlockList::new(alloc),
        deadline: Some(deadline),
        expired: false,
        buffer: Bytes::new(alloc),
    })
}

/// Adds a command.
fn added(table: &mut Table, pending: Pending) -> Result<u16, Fail>
    requires few { length table.old.rows < 65535 }
    requires last { AllPrecede table.old.rows pending }
    ensures { IfOk result (λ id. table.new.rows ≡ table.old.rows ++ record { id = id; pending = record pending { expired = false } } ∷ []) }
{
    table.reserve()?;
    Ok(table.add(pending))
}

#[test]
fn commands_are_found_by_id_and_in_order(rt: HostRuntime) -> Result<(), Fail> {
    let alloc = rt.alloc();
    let mut table = Table::new(alloc);
    assert_eq!(rt; (table.least(), table.next_due(9)), (None, None));
    let first = added(&mut table, pending(alloc, 1, 5)?)?;
    let second = added(&mut table, pending(alloc, 2, 7)?)?;
    assert_eq!(rt; (first, second), (1, 2));
    assert_eq!(rt;
        (table.least(), table.after(1), table.after(2)),
        (Some(1), Some(2), None)
    );
    assert_eq!(rt; (table.next_due(4), table.next_due(5)), (None, Some(1)));
    table.expire(first);
    assert_eq!(rt; (table.next_due(6), table.next_due(7)), (None, Some(2)));
    assert_eq!(rt; (table.len(), table.expired()), (2, 1));
    assert_eq!(rt;
        table
            .get(1)
            .map(|pending| (pending.serial, pending.expired)),
        Some((1, true))
    );
    assert_eq!(rt; table.take(1).map(|pending| pending.serial), Some(1));
    assert!(rt; table.get(1).is_none() && table.take(1).is_none() && table.get(0).is_none());
    assert_eq!(rt;
        (table.least(), table.len(), table.expired()),
        (Some(2), 1, 0)
    );
    Ok(())
}
