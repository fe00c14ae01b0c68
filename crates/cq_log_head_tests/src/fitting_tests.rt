//! Logs that go on from these images, and logs that go on from others.
use crate::images::{Images, SMALL, Settings, can_begin, config_of, held_in};
use cq_cycle::Roll;
use cq_log_head::{Difference, Head, fits};
use std::test::Fail;

/// Images of a queue of `SMALL`.
const IMAGES: Images = Images {
    cycles: &[(5, &["ab", "c"]), (7, &["d"])],
    position: 21_474_836_481,
    floor: 5,
};

/// Settings and images, and how the head of a log differs from them that goes on from `IMAGES`.
static ROWS: [(Settings, Images, Result<(), Difference>); 16] = [
    (SMALL, IMAGES, Ok(())),
    // The same end, floor and positions, but other messages: that is not seen.
    (
        SMALL,
        Images {
            cycles: &[(5, &["x"]), (7, &["y"])],
            ..IMAGES
        },
        Ok(()),
    ),
    (
        Settings { cells: 65, ..SMALL },
        IMAGES,
        Err(Difference::OtherSettings),
    ),
    (
        Settings {
            cells: 200,
            count: 16,
            ..SMALL
        },
        IMAGES,
        Err(Difference::OtherSettings),
    ),
    (
        Settings {
            spacing: 2,
            ..SMALL
        },
        IMAGES,
        Err(Difference::OtherSettings),
    ),
    (
        Settings { cycles: 5, ..SMALL },
        IMAGES,
        Err(Difference::OtherSettings),
    ),
    (
        Settings {
            roll: Roll::Hourly,
            ..SMALL
        },
        IMAGES,
        Err(Difference::OtherSettings),
    ),
    (
        Settings { epoch: 1, ..SMALL },
        IMAGES,
        Err(Difference::OtherSettings),
    ),
    (
        Settings {
            name: "readers",
            ..SMALL
        },
        IMAGES,
        Err(Difference::OtherSettings),
    ),
    // A cycle before the last one was lost, or one came.
    (
        SMALL,
        Images {
            cycles: &[(7, &["d"])],
            ..IMAGES
        },
        Err(Difference::OtherCycles),
    ),
    (
        SMALL,
        Images {
            cycles: &[(4, &[]), (5, &["ab", "c"]), (7, &["d"])],
            ..IMAGES
        },
        Err(Difference::OtherCycles),
    ),
    (
        SMALL,
        Images {
            cycles: &[],
            position: 0,
            floor: 0,
        },
        Err(Difference::OtherCycles),
    ),
    // The messages of the log are in the images already.
    (
        SMALL,
        Images {
            cycles: &[(5, &["ab", "c"]), (7, &["d", "e"])],
            ..IMAGES
        },
        Err(Difference::OtherEnd),
    ),
    (
        SMALL,
        Images {
            cycles: &[(5, &["ab", "c"]), (8, &["d"])],
            ..IMAGES
        },
        Err(Difference::OtherEnd),
    ),
    (
        SMALL,
        Images { floor: 6, ..IMAGES },
        Err(Difference::OtherFloor),
    ),
    (
        SMALL,
        Images {
            position: 21_474_836_480,
            ..IMAGES
        },
        Err(Difference::OtherPositions),
    ),
];

#[test]
fn logs_fit_these_images(rt: HostRuntime) -> Result<(), Fail> {
    let alloc = rt.alloc();
    let config = config_of(alloc, SMALL)?;
    let contents = held_in(alloc, IMAGES)?;
    assert!(rt; can_begin(&config, &contents));
    let head = Head::of(alloc, &config, &contents)?;
    for (i, (settings, images, wanted)) in ROWS.iter().enumerate() {
        let config = config_of(alloc, *settings)?;
        let contents = held_in(alloc, *images)?;
        assert!(rt; can_begin(&config, &contents), "at {i}");
        assert_eq!(rt; fits(&head, &config, &contents), *wanted, "at {i}");
    }
    Ok(())
}
