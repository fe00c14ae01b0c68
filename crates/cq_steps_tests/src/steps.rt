ghost use Rattle.std.specs.Prelude.{◌≡◌, ◌↔◌, ◌+◌, IfSome, None};

/// How many more atomic steps a caller makes before it is lost.
#[derive(Drop)]
pub struct Steps {
    /// Those that are left.
    pub left: u32,
}

impl Steps {
    /// Counts the step that comes next. Returns `None` if no step is left: the caller is lost before it.
    pub fn next(&mut self) -> Option<()>
        ensures made { IfSome result (λ u. self.new.left + 1 ≡ self.old.left) }
        ensures lost { (result ≡ None) ↔ (self.old.left ≡ 0) }
    {
        if self.left == 0 {
            return None;
        }
        self.left -= 1;
        Some(())
    }
}
