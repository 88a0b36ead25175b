//! Finds requests by their user_data or by their descriptor.
ghost use Rattle.std.specs.Prelude.{◌≡◌, ◌<◌, ◌≤◌, IfSome, IfNone, length};
ghost use Rattle.links_drains.specs.Finders.{holds_now, NoUser};
ghost use Rattle.links_drains.specs.Numbered.{IsNextWhere, NoneWhere};

use super::Table;

impl Table {
    /// Returns the end of the requests with this user_data: no request has it from there on. Takes
    /// constant time.
    pub fn end_of_user(&self, user_data: u64) -> u32
        ensures within { result ≤ length self.now }
        ensures none { NoUser user_data self.now result (length self.now) }
    {
        self.finder.end_of_user(&self.rows, user_data) as u32
    }

    /// Returns the end of the requests with this user_data below r: no request has it from there up
    /// to r. Takes constant time.
    pub fn end_before(&self, user_data: u64, r: u32) -> u32
        requires { r < length self.now }
        ensures below { result ≤ r }
        ensures none { NoUser user_data self.now result r }
    {
        self.finder.end_before(&self.rows, user_data, r as usize) as u32
    }

    /// Returns the first request from a number on that holds a descriptor. Examines only issued
    /// requests, and only in blocks of 64 requests with one that holds the descriptor or held it.
    pub fn next_holder(&self, fd: u32, from: u32) -> Option<u32>
        ensures some { IfSome result (λ r. IsNextWhere (holds_now fd) self.now from r) }
        ensures none { IfNone result (NoneWhere (holds_now fd) self.now from) }
        ensures few { IfSome result (λ r. r < 65536) }
    {
        match self
            .finder
            .next_holder(&self.rows, &self.index, fd, from as usize)
        {
            Some(r) => Some(r as u32),
            None => None,
        }
    }
}
