use crate::reading::read;
use crate::whole::{is_cut, whole};
use crate::writing::{write, write_taken};
use giving::ids::{StationId, Ticket};
use lines::fault::Fault;
use pieces::names::Seat;
use state::record::Record;
use std::test::Fail;

#[test]
fn writes_high_byte_first(rt: HostRuntime) -> Result<(), Fail> {
    let mut out = Vec::new(rt.alloc());
    out.reserve(19)?;
    write_taken(
        &mut out,
        StationId(2),
        &[1, 0, 0, 0, 9, 0, 0, 1, 7, 0, 3, 1, 4],
    );
    write(&mut out, Record::Undone(Ticket(258)));
    let bytes = [9, 2, 0, 0, 0, 9, 0, 0, 1, 7, 0, 3, 1, 4, 7, 0, 0, 1, 2];
    assert_eq!(rt; out.as_slice(), &bytes[..]);
    assert_eq!(rt; whole(&bytes[..18]), &bytes[..14]);
    assert_eq!(rt; is_cut(&bytes[14..18]), true);
    assert_eq!(rt; is_cut(&[8, 0, 0, 0, 0, 1]), true);
    assert_eq!(rt; is_cut(&[5]), false);
    Ok(())
}

#[test]
fn reads_a_ticket_of_one_trip(rt: HostRuntime) -> Result<(), Fail> {
    let mut bytes = [
        6, 0, 0, 0, 1, 2, 0, 0, 0, 7, 0, 3, 1, 4, 0, 0, 0, 7, 1, 2, 1, 4, 10,
    ];
    let Ok((Record::Sold(ticket, party), rest)) = read(&bytes) else {
        return Err(Fail::new("no ticket"));
    };
    assert_eq!(rt; ticket, Ticket(1));
    assert_eq!(rt; party.seats(), &[Seat(3), Seat(258)][..]);
    assert_eq!(rt; rest, &[10][..]);
    bytes[21] = 5;
    assert_eq!(rt; read(&bytes).err(), Some(Fault::Bad));
    Ok(())
}
