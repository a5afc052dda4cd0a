ghost use Rattle.std.specs.Prelude.{List};
ghost use Rattle.pr_line.specs.declared.options.Options.{Options};
ghost use Rattle.pr_truss.specs.Trusses.{first_truss};
ghost use Rattle.pr_truss_laws.specs.Business.{DoesItsBusiness};
ghost use Rattle.pr_truss_laws.specs.Exchanges.{Exchange, Makes};

/// Wherever truss has come to: it has opened, closed, sent messages, waited for stops, read and polled, and has made
/// a process of its program with its first call, and nothing else. Its messages run a process, begin to leave one, or
/// come right after the call before them in an opening. It opens no process but those that the options name, that
/// one, and the children of which a read told, each right after that read. Each refusal that it reports is that of a
/// call of its own for the process, and no interrupt. Each poll names all processes that it holds, and at least one;
/// and it polls again, or has finished, after so many calls. What has ended it closes before it does anything else.
/// Once a wait was interrupted it does nothing but leave its processes. The events that it reports are ones that the
/// options select; and without -c it prints one line for each report, and what it would have printed before is the
/// front of what it prints. This is so whatever it was replied.
pub fn truss_does_its_own_business()
    ensures { (o : Options) (xs : List Exchange) → Makes (first_truss o) xs → DoesItsBusiness o xs }
{}
