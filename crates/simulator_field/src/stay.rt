//! In which connection a controller was last.

ghost use Rattle.std.specs.Prelude.{◌≡◌, ◌+◌, ◌^◌, ◌<◌};
ghost use Rattle.simulator_field.specs.inside.Stay.{noted};

/// The last connection of a controller.
#[derive(Clone, Copy, Debug)]
pub(crate) struct Stay {
    /// The last connection that it entered.
    pub(crate) connection: Option<usize>,
    /// How many datagrams were sent when it last left one or was made anew.
    pub(crate) left: usize,
}

impl Stay {
    /// Notes a step in which so many datagrams were sent, when this many were sent before, and after which its link is
    /// in a connection or not. A server outside sends nothing but its answer to a request, which it has taken then.
    pub(crate) fn note(
        &mut self,
        was_inside: bool,
        sends: usize,
        is_open: bool,
        connection: usize,
        moment: usize,
    )
        requires { moment + sends < 2 ^ 64 }
        ensures { self.new ≡ noted was_inside sends is_open connection moment self.old }
    {
        let has_entered = !was_inside && sends != 0;
        if has_entered {
            self.connection = Some(connection);
        }
        if (was_inside || has_entered) && !is_open {
            self.left = moment + sends;
        }
    }
}
