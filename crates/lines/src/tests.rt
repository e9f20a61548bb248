use crate::fault::Fault;
use crate::frame::Frame;
use crate::reading::read;
use giving::ids::{Ask, Number};
use giving::message::Body;
use pieces::demand::Demand;
use pieces::names::{Seat, Stop, Train};
use pieces::piece::Piece;
use pieces::tally::Tally;
use pieces::trip::Trip;
use std::test::Fail;

#[test]
fn reads_each_kind_back(rt: HostRuntime) -> Result<(), Fail> {
    let Some(trip) = Trip::new(Stop(1), Stop(4)) else {
        return Err(Fail::new("no trip"));
    };
    let demand = Demand {
        train: Train(7),
        from: Stop(1),
        to: Stop(4),
        people: 3,
    };
    for body in [
        Body::Given(Number(258), Piece::new(Train(7), Seat(3), trip)),
        Body::Taken(Number(9)),
        Body::Asked(Ask(5), demand),
        Body::Answered(Ask(5), 2),
        Body::Told(Train(7), Tally { whole: 1, any: 300 }),
    ] {
        assert_eq!(rt; read(Frame::of(body).bytes()), Ok(body));
    }
    Ok(())
}

#[test]
fn refuses_what_is_no_message(rt: HostRuntime) -> Result<(), Fail> {
    let bytes = [4, 0, 0, 1, 2, 3, 0];
    assert_eq!(rt; read(&bytes[..6]), Ok(Body::Answered(Ask(258), 3)));
    assert_eq!(rt; read(&bytes[..5]), Err(Fault::Cut));
    assert_eq!(rt; read(&bytes), Err(Fault::Bad));
    assert_eq!(rt; read(&[0, 0, 0, 1, 2]), Err(Fault::Bad));
    assert_eq!(rt; read(&[6, 0, 0, 1, 2]), Err(Fault::Bad));
    Ok(())
}
