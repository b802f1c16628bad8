//! The nodes of the last drill.
ghost use Rattle.std.specs.Prelude.{◌≡◌, Some, None, option_map};
ghost use Rattle.cd_drill.specs.Drilled.{node_a, node_b};

use crate::course::Course;
use cd_canonical::Canonical;
use cd_plain::Node;

/// The two nodes of the last drill.
#[derive(Drop)]
pub struct Bench {
    pub(crate) course: Option<Course>,
}

impl Bench {
    /// No nodes. It takes no memory.
    pub fn new() -> Self
        ensures a { node_a result ≡ None }
        ensures b { node_b result ≡ None }
    {
        Bench { course: None }
    }

    /// It has no nodes from now on.
    pub(crate) fn clear(&mut self)
        ensures { self.new.course ≡ None }
    {
        self.course = None;
    }

    /// It has the nodes of this course from now on.
    pub(crate) fn keep(&mut self, course: Course)
        ensures { self.new.course ≡ Some course }
    {
        self.course = Some(course);
    }

    /// The node ALPHA, where a drill left it. It takes no memory.
    pub fn a(&self) -> Option<&Node<Canonical>>
        ensures { option_map (λ node. node.now) result ≡ node_a self.now }
    {
        match &self.course {
            Some(course) => Some(course.pair.a.node()),
            None => None,
        }
    }

    /// The node BETA, where a drill left it. It takes no memory.
    pub fn b(&self) -> Option<&Node<Canonical>>
        ensures { option_map (λ node. node.now) result ≡ node_b self.now }
    {
        match &self.course {
            Some(course) => Some(course.pair.b.node()),
            None => None,
        }
    }
}
