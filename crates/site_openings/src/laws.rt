//! The laws, each as the contract of a function.
ghost use Rattle.std.specs.Prelude.{List, ◌++◌};
ghost use Rattle.site_model.specs.declared.status.Status.{Status};
ghost use Rattle.site_openings.specs.Openings.{AllowedBy, Check, Contents_of, NamesAsWell, RefusedBy};

/// Disks that some checks let pass aren't refused by them.
pub fn what_is_let_pass_is_not_refused()
    ensures { (checks : List Check) (contents : Contents_of) (status : Status) → AllowedBy checks contents → RefusedBy checks contents status → ⊥ }
{}

/// Two statuses by which checks refuse the same disks name the same disk, or are the same.
pub fn a_refusal_names_one_disk()
    ensures { (checks : List Check) (contents : Contents_of) (first second : Status) → RefusedBy checks contents first → RefusedBy checks contents second
        → NamesAsWell first second }
{}

/// Checks may be made one after another: the first that doesn't let the disks pass refuses them.
pub fn checks_follow_one_another()
    ensures both { (checks more : List Check) (contents : Contents_of) → AllowedBy checks contents → AllowedBy more contents → AllowedBy (checks ++ more) contents }
    ensures front { (checks more : List Check) (contents : Contents_of) (status : Status) → RefusedBy checks contents status → RefusedBy (checks ++ more) contents status }
    ensures behind { (checks more : List Check) (contents : Contents_of) (status : Status) → AllowedBy checks contents → RefusedBy more contents status
        → RefusedBy (checks ++ more) contents status }
{}
