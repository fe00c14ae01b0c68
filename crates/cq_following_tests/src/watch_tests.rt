//! A folder of the system that is not there: whether it may have changed.
use cq_fixtures::expect;
use cq_following::{Changes, FolderChanges};
use std::test::Fail;

#[test]
fn a_folder_may_have_changed_at_first(rt: HostRuntime) -> Result<(), Fail> {
    let mut changes = FolderChanges::new(&rt, "no-such-folder")?;
    expect(changes.may_have_changed(), "at the first look")?;
    expect(changes.may_have_changed(), "while the change is young")
}
