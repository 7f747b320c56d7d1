//! The laws, each as the contract of a function.
ghost use Rattle.backup_lines.specs.Spans.{Point, find_point};
ghost use Rattle.site_worlds.specs.Fitness.{IsFitSite};
ghost use Rattle.site_worlds.specs.Worlds.{Site};
ghost use Rattle.site_courses.specs.Plans.{spans_of};
ghost use Rattle.point_laws.specs.PointLaws.{Agrees};

/// Of a fit site, what the lines of log files and the files that the log's disk holds lead to is the position that the whole history
/// gives: a position, or a file in whose records it lies. Only the file of a point that has no records isn't found.
pub fn what_is_found_is_the_position()
    ensures { (site : Site) → IsFitSite site → (point : Point) → Agrees site point (find_point point (spans_of site)) }
{}
