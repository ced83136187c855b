//! Tests of the registers crate at the edges of rooms, counts and figures.
#![tactic(auto)]

#[cfg(test)]
mod tests {
    use registers::amounts::money;
    use registers::fault::StoreFault;
    use registers::figures::Figures;
    use registers::image;
    use registers::image::ImageStore;
    use registers::key::Key;
    use registers::ranges::{Price, Quantity};
    use registers::row::Row;
    use registers::store::Store;
    use registers::table::RowStore;
    use std::fmt::Debug;
    use std::process::Abort;
    use std::test::Fail;

    const ZERO: Figures = Figures {
        limit: 0,
        blocked: 0,
        third: 0,
    };

    // kinds are numbers here: an image may spell any
    fn key(kind: u8, code: u32, security: u16) -> Key {
        Key {
            kind,
            code,
            security,
        }
    }

    fn row(kind: u8, code: u32, security: u16, figures: Figures) -> Row {
        Row {
            key: key(kind, code, security),
            figures,
        }
    }

    /// A store's answer, with a fault as its refusal number: the rules give numbers, and tests hold to them.
    fn numbered(answer: Result<(), StoreFault>) -> Result<(), u8> {
        answer.map_err(|fault| fault.number())
    }

    /// Compares what is found with what is expected: one function, since every comparison is proved where it
    /// stands.
    fn check<T: Copy + PartialEq + Debug>(rt: &impl Abort, found: T, expected: T) {
        assert_eq!(rt; found, expected);
    }

    fn figures_at<S: Store>(store: &mut S, place: usize) -> Option<Figures> {
        store.row(place).map(|row| row.figures)
    }

    fn cost(quantity: u32, price: u32) -> Option<u64> {
        Some(money(Quantity::new(quantity)?, Price::new(price)?).units)
    }

    #[test]
    fn figures_at_the_ends_of_64_bits(rt: HostRuntime) {
        let mut bytes = [0xFF; 38];
        check(&rt, image::format(&mut bytes), Ok(()));
        let mut store = ImageStore::new(&mut bytes);
        let low = Figures {
            limit: i64::MIN,
            blocked: i64::MAX,
            third: -1,
        };
        let high = Figures {
            limit: i64::MAX,
            blocked: i64::MIN,
            third: 1,
        };
        check(&rt, store.add(row(255, u32::MAX, u16::MAX, low)), Ok(()));
        check(&rt, figures_at(&mut store, 0), Some(low));
        check(&rt, store.put(0, high), Ok(()));
        check(&rt, figures_at(&mut store, 0), Some(high));
        check(&rt, store.find(key(255, u32::MAX, u16::MAX)), Some(0));
        assert!(rt; !low.in_range());
        assert!(rt; !high.in_range());
    }

    #[test]
    fn figures_in_range_and_just_outside(rt: HostRuntime) {
        let most = 1_000_000_000_000_000;
        assert!(rt;
            Figures {
                limit: most,
                blocked: -most,
                third: 0,
            }
            .in_range()
        );
        assert!(rt;
            Figures {
                limit: -most,
                blocked: most,
                third: most,
            }
            .in_range()
        );
        assert!(rt;
            !Figures {
                limit: most + 1,
                blocked: 0,
                third: 0,
            }
            .in_range()
        );
        assert!(rt;
            !Figures {
                limit: 0,
                blocked: -most - 1,
                third: 0,
            }
            .in_range()
        );
        assert!(rt;
            !Figures {
                limit: 0,
                blocked: 0,
                third: -1,
            }
            .in_range()
        );
        assert!(rt;
            !Figures {
                limit: 1,
                blocked: 0,
                third: most,
            }
            .in_range()
        );
    }

    #[test]
    fn a_row_store_without_room(rt: HostRuntime) {
        let mut table: [Row; 0] = [];
        let mut store = RowStore::new(&mut table);
        check(&rt, store.room(), 0);
        check(&rt, store.count(), 0);
        check(&rt, numbered(store.add(row(1, 701, 0, ZERO))), Err(2));
        check(&rt, numbered(store.put(0, ZERO)), Err(6));
        check(&rt, store.find(key(1, 701, 0)), None);
    }

    #[test]
    fn an_image_of_room_one(rt: HostRuntime) {
        let mut bytes = [0; 68];
        check(&rt, image::format(&mut bytes), Ok(()));
        let mut store = ImageStore::new(&mut bytes);
        check(&rt, store.room(), 1);
        check(&rt, store.add(row(2, 701, 5, ZERO)), Ok(()));
        check(&rt, numbered(store.add(row(2, 702, 5, ZERO))), Err(2));
        check(&rt, store.count(), 1);
    }

    #[test]
    fn an_image_of_header_alone(rt: HostRuntime) {
        let mut bytes = [0; 7];
        check(&rt, image::format(&mut bytes), Ok(()));
        let mut store = ImageStore::new(&mut bytes);
        check(&rt, store.room(), 0);
        check(&rt, numbered(store.add(row(1, 701, 0, ZERO))), Err(2));
    }

    #[test]
    fn a_key_that_appears_twice(rt: HostRuntime) {
        let mut table = [row(0, 0, 0, ZERO); 4];
        let mut store = RowStore::new(&mut table);
        let first = Figures {
            limit: 1,
            blocked: 0,
            third: 0,
        };
        let second = Figures {
            limit: 2,
            blocked: 0,
            third: 0,
        };
        check(&rt, store.add(row(1, 700, 0, ZERO)), Ok(()));
        check(&rt, store.add(row(1, 701, 0, first)), Ok(()));
        check(&rt, store.add(row(1, 701, 0, second)), Ok(()));
        check(&rt, store.find(key(1, 701, 0)), Some(1));
        check(&rt, store.put(1, ZERO), Ok(()));
        check(&rt, figures_at(&mut store, 1), Some(ZERO));
        check(&rt, figures_at(&mut store, 2), Some(second));
    }

    #[test]
    fn what_a_table_held_before_means_nothing(rt: HostRuntime) {
        let mut table = [row(1, 701, 0, ZERO); 2];
        let mut store = RowStore::new(&mut table);
        check(&rt, store.find(key(1, 701, 0)), None);
        check(&rt, store.row(0), None);
    }

    #[test]
    fn rooms_of_4096_and_above(rt: HostRuntime) -> Result<(), Fail> {
        let heap = rt.alloc();
        let mut table = vec![in heap; row(0, 0, 0, ZERO); 4097]?;
        let mut rows = RowStore::new(&mut table);
        check(&rt, rows.room(), 4096);
        let mut bytes = vec![in heap; 0u8; 126_983]?;
        check(&rt, image::format(&mut bytes), Ok(()));
        let mut whole = ImageStore::new(&mut bytes);
        check(&rt, whole.room(), 4096);
        let mut short = vec![in heap; 0u8; 126_982]?;
        check(&rt, image::format(&mut short), Ok(()));
        let mut less = ImageStore::new(&mut short);
        check(&rt, less.room(), 4095);
        let mut long = vec![in heap; 0u8; 200_000]?;
        check(&rt, image::format(&mut long), Ok(()));
        let mut more = ImageStore::new(&mut long);
        check(&rt, more.room(), 4096);
        Ok(())
    }

    #[test]
    fn a_count_of_65535(rt: HostRuntime) -> Result<(), Fail> {
        let heap = rt.alloc();
        let mut bytes = vec![in heap; 0u8; 126_983]?;
        check(&rt, image::format(&mut bytes), Ok(()));
        assert!(rt; bytes.len() > 6);
        bytes[5] = 0xFF;
        bytes[6] = 0xFF;
        let mut store = ImageStore::new(&mut bytes);
        check(&rt, store.count(), 4096);
        check(&rt, numbered(store.add(row(1, 701, 0, ZERO))), Err(2));
        check(&rt, store.put(4095, ZERO), Ok(()));
        check(&rt, numbered(store.put(4096, ZERO)), Err(6));
        Ok(())
    }

    #[test]
    fn a_row_store_filled_to_4096(rt: HostRuntime) -> Result<(), Fail> {
        let heap = rt.alloc();
        let mut table = vec![in heap; row(0, 0, 0, ZERO); 4096]?;
        let mut store = RowStore::new(&mut table);
        // the codes themselves are gone through
        for code in 0..4096 {
            check(&rt, store.add(row(1, code, 0, ZERO)), Ok(()));
        }
        check(&rt, store.count(), 4096);
        check(&rt, numbered(store.add(row(1, 9999, 0, ZERO))), Err(2));
        check(&rt, store.find(key(1, 4095, 0)), Some(4095));
        Ok(())
    }

    #[test]
    fn the_greatest_and_the_least_price(rt: HostRuntime) {
        check(&rt, cost(1, 1), Some(0));
        check(&rt, cost(1, 100_000_000), Some(1_000_000));
        check(&rt, cost(1_000_001, 1), None);
        check(&rt, Price::new(0), None);
        check(&rt, Price::new(100_000_001), None);
    }
}
