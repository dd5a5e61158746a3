//! The page. `tools/embed-page` writes this file from view/index.html.

/// The page.
pub fn index() -> &'static str {
    r#"<!DOCTYPE html>
<html lang="en">
<head>
  <meta charset="utf-8">
  <meta name="viewport" content="width=device-width, initial-scale=1">
  <meta name="color-scheme" content="light dark">
  <title>zxtt-view</title>
  <link rel="stylesheet" href="/style.css">
  <script src="/script.js" defer></script>
</head>
<body>
  <header>
    <h1>zxtt<span>view</span></h1>
    <p id="trace" title="Trace file"></p>
    <div class="steps" role="group" aria-label="Step through the calls">
      <button type="button" id="step-first" title="Go to the start (Home)" aria-label="Go to the start">
        <svg viewBox="0 0 16 16" aria-hidden="true"><path d="M3 3h2v10H3zM13 3v10L6 8z"></path></svg>
      </button>
      <button type="button" id="step-back" title="Step back (Left)" aria-label="Step back">
        <svg viewBox="0 0 16 16" aria-hidden="true"><path d="M11 3v10L4 8z"></path></svg>
      </button>
      <button type="button" id="step-forth" title="Step forward (Right)" aria-label="Step forward">
        <svg viewBox="0 0 16 16" aria-hidden="true"><path d="M5 3v10l7-5z"></path></svg>
      </button>
      <button type="button" id="step-last" title="Go to the head of the branch (End)" aria-label="Go to the head of the branch">
        <svg viewBox="0 0 16 16" aria-hidden="true"><path d="M3 3v10l7-5zM11 3h2v10h-2z"></path></svg>
      </button>
    </div>
    <p id="position" role="status" aria-live="polite"></p>
    <form id="jump-form">
      <label for="jump">Go to</label>
      <input id="jump" inputmode="numeric" autocomplete="off" placeholder="moment" aria-label="Go to a moment">
    </form>
    <span class="space"></span>
    <a class="button" id="download" href="/tree" download="tree.trace" title="Download all branches as a session file">Download tree</a>
    <button type="button" id="help" title="Keys and terms (?)">Help</button>
    <button type="button" id="end" title="Quit zxtt-view">Quit</button>
  </header>

  <div id="trouble" role="alert" hidden>
    <span id="trouble-text"></span>
    <button type="button" id="trouble-again">Try again</button>
    <button type="button" id="trouble-close" aria-label="Close this message">Close</button>
  </div>

  <main>
    <div class="column">
      <section class="panel grow" aria-labelledby="timeline-title">
        <div class="head">
          <h2 id="timeline-title">Timeline</h2>
          <span class="note" id="timeline-note"></span>
        </div>
        <form id="search-form" role="search">
          <select id="search-kind" aria-label="Search by">
            <option value="any">anything</option>
            <option value="process">process</option>
            <option value="call">call</option>
            <option value="handle">handle</option>
            <option value="koid">koid</option>
          </select>
          <input id="search" type="search" autocomplete="off" spellcheck="false" placeholder="Search calls (/)"
            title="A text of a call, a note or a name; a number; or a process and a handle, such as 1025 7" aria-label="Search calls">
          <label class="check"><input type="checkbox" id="failed-only"> failed only</label>
        </form>
        <div id="timeline" role="listbox" tabindex="0" aria-label="Calls on the branch">
          <p id="timeline-none" class="dim" hidden></p>
          <div id="timeline-rows"></div>
        </div>
      </section>

      <section class="panel" aria-labelledby="tree-title">
        <div class="head">
          <h2 id="tree-title">Branches</h2>
          <form id="branch-form">
            <input id="branch-name" autocomplete="off" spellcheck="false" maxlength="32" placeholder="branch name"
              aria-label="Name of a new branch">
            <button id="branch-make" title="Make a branch at this moment">Branch here</button>
          </form>
        </div>
        <div id="tree"></div>
        <form id="call-form" aria-label="Make a call at the head of the branch">
          <div class="line">
            <select id="call-process" aria-label="Calling process"></select>
            <select id="call-name" aria-label="Call"></select>
            <button id="call-run">Call</button>
          </div>
          <input id="call-arguments" autocomplete="off" spellcheck="false" aria-label="Arguments of the call">
          <output id="call-answer" for="call-process call-name call-arguments"></output>
        </form>
      </section>
    </div>

    <div class="column">
      <section class="panel" id="change-panel" aria-labelledby="change-title">
        <div class="head">
          <h2 id="change-title">Changes by this call</h2>
          <span class="note" id="change-note"></span>
        </div>
        <div id="change" tabindex="0" role="region" aria-labelledby="change-title"></div>
      </section>
      <section class="panel grow" aria-labelledby="state-title">
        <div class="head">
          <h2 id="state-title">State</h2>
          <span class="note" id="state-note"></span>
        </div>
        <div id="state" tabindex="0" role="region" aria-labelledby="state-title"></div>
      </section>
    </div>

    <div class="column">
      <section class="panel grow" aria-labelledby="graph-title">
        <div class="head">
          <h2 id="graph-title">Object graph</h2>
          <span class="note" id="graph-note"></span>
        </div>
        <div id="leaks" role="status"></div>
        <div id="graph" tabindex="0" role="region" aria-labelledby="graph-title"></div>
      </section>
      <section class="panel" id="handle-panel" aria-labelledby="handle-title" hidden>
        <div class="head">
          <h2 id="handle-title">Life of a handle</h2>
          <span class="note" id="handle-note"></span>
          <form class="naming" id="handle-naming">
            <input id="handle-name" autocomplete="off" spellcheck="false" maxlength="64" placeholder="name" title="Name of this handle">
          </form>
          <button type="button" id="handle-close" aria-label="Close the life of the handle">Close</button>
        </div>
        <div id="handle" tabindex="0" role="region" aria-labelledby="handle-title"></div>
      </section>
      <section class="panel" id="object-panel" aria-labelledby="object-title">
        <div class="head">
          <h2 id="object-title">Object</h2>
          <span class="note" id="object-note"></span>
          <form class="naming" id="object-naming" hidden>
            <input id="object-name" autocomplete="off" spellcheck="false" maxlength="64" placeholder="name" title="Name of this object">
          </form>
        </div>
        <div id="object" tabindex="0" role="region" aria-labelledby="object-title"></div>
      </section>
    </div>
  </main>

  <dialog id="end-dialog" aria-labelledby="end-title">
    <h2 id="end-title">Quit zxtt-view?</h2>
    <p>The server stops, and this page can load nothing more. zxtt-view writes the tree only if you started it with
      <code>--save-tree</code>. You can download the tree first. Names that you gave are only in the download.</p>
    <form method="dialog">
      <a class="button" href="/tree" download="tree.trace">Download tree</a>
      <span class="space"></span>
      <button value="stay" id="end-cancel">Cancel</button>
      <button value="end" id="end-confirm" class="danger">Quit</button>
    </form>
  </dialog>

  <dialog id="help-dialog" aria-labelledby="help-title">
    <h2 id="help-title">Keys and terms</h2>
    <dl>
      <dt><kbd>Left</kbd> <kbd>Right</kbd></dt><dd>one call back, one call forward</dd>
      <dt><kbd>Up</kbd> <kbd>Down</kbd></dt><dd>one row up, one row down</dd>
      <dt><kbd>Page Up</kbd> <kbd>Page Down</kbd></dt><dd>20 rows up, 20 rows down</dd>
      <dt><kbd>Home</kbd> <kbd>End</kbd></dt><dd>to the start, to the head of the branch</dd>
      <dt><kbd>/</kbd></dt><dd>search; <kbd>Enter</kbd> goes to the next match, <kbd>Shift+Enter</kbd> to the previous one,
        <kbd>Escape</kbd> clears the search. A process and a handle, such as <code>1025 7</code>, find the life of that handle. Paste a
        text of a log to go to the first call whose note or names have it</dd>
      <dt><kbd>g</kbd></dt><dd>go to a moment</dd>
      <dt><kbd>Escape</kbd></dt><dd>deselect the object and the handle</dd>
      <dt><kbd>?</kbd></dt><dd>this help</dd>
    </dl>
    <p><b>Moment</b> n is the state after the n-th answered call, counted over all branches. Moment 0 is the start. You can make
      calls only at the head of a branch. To try another future, go to a moment and make a branch there. Other branches
      stay as they are.</p>
    <p>The <b>note</b> of a call is the comment ahead of it in the trace. Names of objects and handles are in comments too. You can give
      names in the panels of the object and the handle. They are in the tree that you download.</p>
    <p>An object is <b>leaked</b> if it exists but no process can reach it. Click a koid to select its object. Click a handle
      to see its life: the steps by which it came where it is. Hover over rights, signals and bytes for details.</p>
    <form method="dialog"><span class="space"></span><button id="help-close">Close</button></form>
  </dialog>
</body>
</html>
"#
}
