//! What the map does on examples.

use map::{DataMark, InvalidId, LocalId, MapFault, Object, ObjectData, ObjectMap, SERVER_ID_LIMIT};

fn object(row: u32, serial: u32) -> Object<ObjectData> {
    Object {
        row,
        version: 1,
        data: ObjectData {
            serial,
            mark: DataMark::Awaited,
        },
    }
}

fn plain(number: u32) -> Object<u32> {
    Object {
        row: 1,
        version: 1,
        data: number,
    }
}

#[test]
fn faults(rt: HostRuntime) {
    let mut map = ObjectMap::new();
    assert_eq!(rt; map.insert_at(0, plain(1)), Err(MapFault::Zero));
    assert_eq!(rt; map.insert_at(2, plain(1)), Err(MapFault::Beyond));
    assert_eq!(rt; map.insert_at(1, plain(1)), Ok(()));
    assert_eq!(rt; map.insert_at(1, plain(2)), Err(MapFault::Taken));
    assert_eq!(rt; map.find(1), Some(plain(1)));
}

#[test]
fn full(rt: HostRuntime) {
    let mut map = ObjectMap::new();
    for id in 1..65 {
        assert_eq!(rt; map.insert_at(id, plain(id)), Ok(()));
    }
    map.remove(7);
    assert_eq!(rt; map.insert_at(65, plain(65)), Err(MapFault::Full));
    assert_eq!(rt; map.insert_at(66, plain(66)), Err(MapFault::Beyond));
    assert_eq!(rt; map.insert_at(7, plain(70)), Ok(()));
}

#[test]
fn stale_name(rt: HostRuntime) {
    let mut map = ObjectMap::new();
    let old = LocalId {
        id: 1,
        serial: 5,
        row: 9,
    };
    assert_eq!(rt; map.insert_at(1, object(9, 5)), Ok(()));
    assert_eq!(rt; map.lookup(old), Ok(object(9, 5)));
    assert_eq!(rt; map.lookup(LocalId { row: 8, ..old }), Err(InvalidId));
    map.remove(1);
    assert_eq!(rt; map.insert_at(1, object(9, 6)), Ok(()));
    assert_eq!(rt; map.lookup(old), Err(InvalidId));
    assert_eq!(rt; map.set_mark(old, DataMark::Number(3)), Err(InvalidId));
    assert_eq!(rt; map.find(1), Some(object(9, 6)));
}

#[test]
fn data(rt: HostRuntime) {
    let mut map = ObjectMap::new();
    let name = LocalId {
        id: 1,
        serial: 5,
        row: 9,
    };
    assert_eq!(rt; map.insert_at(1, object(9, 5)), Ok(()));
    assert_eq!(rt; map.set_mark(name, DataMark::Number(3)), Ok(()));
    let marked = ObjectData {
        serial: 5,
        mark: DataMark::Number(3),
    };
    assert_eq!(rt;
        map.find(1),
        Some(Object {
            row: 9,
            version: 1,
            data: marked,
        })
    );
    assert_eq!(rt; map.set_data(2, marked), Err(InvalidId));
}

#[test]
fn walk(rt: HostRuntime) {
    let mut map = ObjectMap::new();
    for id in 1..4 {
        assert_eq!(rt; map.insert_at(id, plain(id)), Ok(()));
    }
    map.remove(2);
    assert_eq!(rt; map.server_insert_new(plain(4)), Some(SERVER_ID_LIMIT));
    assert_eq!(rt; map.next(0), Some(1));
    assert_eq!(rt; map.next(1), Some(3));
    assert_eq!(rt; map.next(3), Some(SERVER_ID_LIMIT));
    assert_eq!(rt; map.next(SERVER_ID_LIMIT), None);
}

#[test]
fn server_half(rt: HostRuntime) {
    let mut map = ObjectMap::new();
    for place in 0..32 {
        assert_eq!(rt;
            map.server_insert_new(plain(place)),
            Some(SERVER_ID_LIMIT + place)
        );
    }
    assert_eq!(rt; map.server_insert_new(plain(32)), None);
    map.remove(SERVER_ID_LIMIT + 4);
    map.remove(SERVER_ID_LIMIT + 2);
    assert_eq!(rt; map.server_insert_new(plain(33)), Some(SERVER_ID_LIMIT + 2));
}
