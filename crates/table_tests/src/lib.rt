// Tests of tables.
#![tactic(auto)]

#[cfg(test)]
mod tests {
    use checks::data::Data;
    use checks::verdict;
    use monoid::fold::word_lamps;
    use monoid::indexes::index_product;
    use monoid::recogniser::Recogniser;
    use monoid::small::SmallRecogniser;
    use rows::kind::{KINDS, Kind};
    use table::data::{MOST, TableData};
    use table::table::Table;

    const H: Kind = Kind::Heading;

    const C: Kind = Kind::Collection;

    const S: Kind = Kind::Summary;

    // The product of two elements is the greater; every row is the unit, and no element is lit.
    fn greatest(size: u8) -> TableData {
        TableData {
            size,
            products: [
                [0, 1, 2, 3, 4, 5, 6, 7],
                [1, 1, 2, 3, 4, 5, 6, 7],
                [2, 2, 2, 3, 4, 5, 6, 7],
                [3, 3, 3, 3, 4, 5, 6, 7],
                [4, 4, 4, 4, 4, 5, 6, 7],
                [5, 5, 5, 5, 5, 5, 6, 7],
                [6, 6, 6, 6, 6, 6, 6, 7],
                [7, 7, 7, 7, 7, 7, 7, 7],
            ],
            images: [0; KINDS],
            lit: [false; MOST],
        }
    }

    // A collection stands somewhere in the word.
    fn collected() -> TableData {
        let mut data = greatest(2);
        data.images = [0, 0, 0, 0, 0, 1, 0, 0];
        data.lit[1] = true;
        data
    }

    // The first row is a collection: the product is the left element, unless that is the unit.
    fn collected_first() -> TableData {
        let mut data = greatest(3);
        data.products[1] = [1, 1, 1, 0, 0, 0, 0, 0];
        data.products[2] = [2, 2, 2, 0, 0, 0, 0, 0];
        data.images = [2, 2, 2, 2, 2, 1, 2, 2];
        data.lit[1] = true;
        data
    }

    // 0 is neutral, and (1·1)·1 is 2·1 = 2, but 1·(1·1) is 1·2 = 1.
    fn bracketed() -> TableData {
        let mut data = greatest(3);
        data.products[1] = [1, 2, 1, 0, 0, 0, 0, 0];
        data.products[2] = [2, 2, 1, 0, 0, 0, 0, 0];
        data
    }

    fn number(data: TableData) -> u8 {
        verdict::number(data.check())
    }

    fn lights(data: TableData, word: &[Kind]) -> bool {
        let mut table = Table::new(data);
        word_lamps(&mut table, word).lights(0)
    }

    #[test]
    fn sizes(rt: HostRuntime) {
        assert_eq!(rt; number(greatest(0)), 21);
        assert_eq!(rt; number(greatest(1)), 0);
        assert_eq!(rt; number(greatest(8)), 0);
        assert_eq!(rt; number(greatest(9)), 21);
        assert_eq!(rt; number(greatest(200)), 21);
    }

    #[test]
    fn entries_below_the_size(rt: HostRuntime) {
        let mut products = greatest(3);
        products.products[3][0] = 200;
        products.products[0][3] = 200;
        assert_eq!(rt; number(products), 0);
        products.products[2][2] = 3;
        assert_eq!(rt; number(products), 22);
        let mut images = greatest(3);
        images.images[7] = 2;
        assert_eq!(rt; number(images), 0);
        images.images[7] = 3;
        assert_eq!(rt; number(images), 22);
        let mut lit = greatest(3);
        lit.lit[2] = true;
        assert_eq!(rt; number(lit), 0);
        lit.lit[3] = true;
        assert_eq!(rt; number(lit), 22);
    }

    #[test]
    fn laws_of_a_monoid(rt: HostRuntime) {
        let mut left = greatest(2);
        left.products[0][1] = 0;
        assert_eq!(rt; number(left), 23);
        let mut right = greatest(2);
        right.products[1][0] = 0;
        assert_eq!(rt; number(right), 23);
        assert_eq!(rt; number(bracketed()), 24);
        assert_eq!(rt; number(collected()), 0);
        assert_eq!(rt; number(collected_first()), 0);
    }

    // The first no is the answer, whatever comes after.
    #[test]
    fn first_no(rt: HostRuntime) {
        let mut data = bracketed();
        data.products[0][1] = 2;
        assert_eq!(rt; number(data), 23);
        data.images[0] = 3;
        assert_eq!(rt; number(data), 22);
        data.size = 9;
        assert_eq!(rt; number(data), 21);
    }

    #[test]
    fn collected_words(rt: HostRuntime) {
        assert!(rt; !lights(collected(), &[]));
        assert!(rt; !lights(collected(), &[H, S]));
        assert!(rt; lights(collected(), &[C]));
        assert!(rt; lights(collected(), &[H, C, S]));
        let mut unlike = collected();
        unlike.lit = [true, false, false, false, false, false, false, false];
        assert!(rt; lights(unlike, &[]));
        assert!(rt; lights(unlike, &[H, S]));
        assert!(rt; !lights(unlike, &[H, C, S]));
    }

    #[test]
    fn words_collected_first(rt: HostRuntime) {
        assert!(rt; !lights(collected_first(), &[]));
        assert!(rt; lights(collected_first(), &[C]));
        assert!(rt; lights(collected_first(), &[C, S]));
        assert!(rt; !lights(collected_first(), &[S, C]));
        assert!(rt; !lights(collected_first(), &[H]));
    }

    #[test]
    fn declined_data_never_light(rt: HostRuntime) {
        let mut data = bracketed();
        data.lit = [true, true, true, false, false, false, false, false];
        assert!(rt; !lights(data, &[]));
        assert!(rt; !lights(data, &[C]));
        assert_eq!(rt; Table::new(data).order(), 1);
    }

    #[test]
    fn indexes_and_products(rt: HostRuntime) {
        let mut table = Table::new(collected_first());
        assert_eq!(rt; table.width(), 1);
        assert_eq!(rt; table.order(), 3);
        assert_eq!(rt; table.element(2), 2);
        assert_eq!(rt; table.index(2), 2);
        assert_eq!(rt; table.product(1, 2), 1);
        assert_eq!(rt; table.product(0, 2), 2);
        assert_eq!(rt; index_product(&mut table, 2, 1), 2);
        assert_eq!(rt; table.asked(), 3);
    }
}
