//! The pages of the statuses, from docs/RULES.md. `tools/write-pages` writes this file.

pub(crate) const WITH_CALLBACK: &str = "WITH_CALLBACK: a status

  returned in                               `pre`
  `data`                                    held
  mode                                      any
  condition                                 there is a `post` of the same operation
  given to `FltCompletePendedPreOperation`  as `NO_CALLBACK`, where each operation with a `pre` has its `post` in this filter

Anything else is R06: `fltstack explain R06` has all statuses.
";

pub(crate) const SYNCHRONIZE: &str = "SYNCHRONIZE: a status

  returned in                               `pre`, not of a create
  `data`                                    held
  mode                                      IRP
  condition                                 there is a `post` of the same operation
  given to `FltCompletePendedPreOperation`  nowhere

Anything else is R06: `fltstack explain R06` has all statuses.
";

pub(crate) const NO_CALLBACK: &str = "NO_CALLBACK: a status

  returned in                               `pre`
  `data`                                    held
  mode                                      any
  condition                                 none
  given to `FltCompletePendedPreOperation`  wherever the call is legal, but not for `data` in `canceled`

Anything else is R06: `fltstack explain R06` has all statuses.
";

pub(crate) const COMPLETE: &str = "COMPLETE: a status

  returned in                               `pre`
  `data`                                    held
  mode                                      any
  condition                                 S isn't `STATUS_PENDING`
  given to `FltCompletePendedPreOperation`  wherever the call is legal

Anything else is R06: `fltstack explain R06` has all statuses.
";

pub(crate) const PENDING: &str = "PENDING: a status

  returned in                               `pre`
  `data`                                    stale: given away
  mode                                      IRP
  condition                                 none
  given to `FltCompletePendedPreOperation`  nowhere

Anything else is R06: `fltstack explain R06` has all statuses.
";

pub(crate) const DISALLOW_FASTIO: &str = "DISALLOW_FASTIO: a status

  returned in                               `pre`
  `data`                                    held
  mode                                      fast
  condition                                 none
  given to `FltCompletePendedPreOperation`  nowhere

Anything else is R06: `fltstack explain R06` has all statuses.
";

pub(crate) const FINISHED_PROCESSING: &str = "FINISHED_PROCESSING: a status

  returned in                               `post`
  `data`                                    held
  mode                                      any
  condition                                 none
  given to `FltCompletePendedPreOperation`  nowhere

Anything else is R06: `fltstack explain R06` has all statuses.
";

pub(crate) const MORE_PROCESSING_REQUIRED: &str = "MORE_PROCESSING_REQUIRED: a status

  returned in                               `post`
  `data`                                    stale: given away
  mode                                      IRP
  condition                                 draining isn't possible
  given to `FltCompletePendedPreOperation`  nowhere

Anything else is R06: `fltstack explain R06` has all statuses.
";
